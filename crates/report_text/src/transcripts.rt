ghost use Rattle.std.specs.Prelude.{◌≡◌, ◌++◌, IfOk, OnOk, map};
ghost use Rattle.report_text.specs.Transcripts.{transcript_in, transcript_line, transcripts_text};

use crate::record::push_hex;
use crate::session::push_head;
use byte_ports::Bytes;
use phrase_tree::{NoMemory, push_bytes};
use std::alloc::Global;
use transcript::RecordedSession;

/// The report of the transcripts of sessions, in their order from session 0 on. An error is want of memory.
/// Takes time linear in the text.
#[tactic(auto, using(crate::proofs::NumberedLemmas::ends))]
pub fn transcripts_text(alloc: Global, recordings: &[RecordedSession]) -> Result<Bytes, NoMemory>
    ensures { IfOk result (λ text. text ≡ transcripts_text (map transcript_in recordings.now)) }
{
    let mut text = Vec::new(alloc);
    let mut number = 0;
    for found in recordings {
        push_transcript(&mut text, number, found)?;
        number += 1;
    }
    Ok(Bytes::of(text))
}

fn push_transcript(
    text: &mut Vec<u8>,
    number: usize,
    recording: &RecordedSession,
) -> Result<(), NoMemory>
    ensures { OnOk result (text.new.items ≡ text.old.items ++ transcript_line number (transcript_in recording.now)) }
{
    push_head(text, number)?;
    push_bytes(text, b" transcript ")?;
    push_hex(text, recording.bytes.items())?;
    push_bytes(text, b"\n")
}
