//! Reading the bytes of a transcript, in place.

ghost use Rattle.std.specs.Prelude.{◌≡◌};
ghost use Rattle.transcript.specs.Bytes.{transcript_head};
ghost use Rattle.transcript.specs.Reading.{run_at, ask_at, delivery_at, answered_at, failed_at, entry_at, behind_byte, behind_bytes};
ghost use Rattle.transcript.specs.Written.{entry_in, Gives, behind_entry, behind_entries, ReadsAll, ReadsCounted, Reads};

use crate::fault::{Stop, TranscriptKind};
use crate::fields::{answer_at, block_at, fault_at, name_at, short, u32_at};
use crate::written::Written;
use session_book::Move;

/// The first bytes of every transcript: "CPLT", and the version 1.
pub(crate) const HEAD: [u8; 5] = [67, 80, 76, 84, 1];

/// The entries of a transcript, as they stand in its bytes, and their number.
#[derive(Clone, Copy, Debug)]
pub(crate) struct Entries<'a> {
    pub count: u32,
    pub bytes: &'a [u8],
}

#[tactic(auto, unfolding(crate::specs::Reading::run_at))]
fn run_at(bytes: &[u8]) -> Result<(Written<'_>, &[u8]), Stop>
    ensures { Gives (λ found. (entry_in found.0, found.1.now)) result (run_at bytes.now) }
{
    let (pass, rest) = u32_at(bytes)?;
    let (name, rest) = block_at(rest)?;
    let step = Move::Run(name);
    Ok((Written::Played { pass, step }, rest))
}

#[tactic(auto, unfolding(crate::specs::Reading::ask_at))]
fn ask_at(bytes: &[u8]) -> Result<(Written<'_>, &[u8]), Stop>
    ensures { Gives (λ found. (entry_in found.0, found.1.now)) result (ask_at bytes.now) }
{
    let (pass, rest) = u32_at(bytes)?;
    let (name, rest) = block_at(rest)?;
    let step = Move::Ask(name);
    Ok((Written::Played { pass, step }, rest))
}

#[tactic(auto, unfolding(crate::specs::Reading::delivery_at))]
fn delivery_at(bytes: &[u8]) -> Result<(Written<'_>, &[u8]), Stop>
    ensures { Gives (λ found. (entry_in found.0, found.1.now)) result (delivery_at bytes.now) }
{
    let (pass, rest) = u32_at(bytes)?;
    match name_at(rest) {
        Ok((place, behind)) => {
            let step = Move::Deliver(place);
            Ok((Written::Played { pass, step }, behind))
        }
        Err(first) => Err(first),
    }
}

#[tactic(auto, unfolding(crate::specs::Reading::answered_at))]
fn answered_at(bytes: &[u8]) -> Result<(Written<'_>, &[u8]), Stop>
    ensures { Gives (λ found. (entry_in found.0, found.1.now)) result (answered_at bytes.now) }
{
    let (pass, rest) = u32_at(bytes)?;
    let (event, rest) = u32_at(rest)?;
    let (answer, rest) = answer_at(rest)?;
    let entry = Written::Answered {
        pass,
        event,
        answer,
    };
    Ok((entry, rest))
}

#[tactic(auto, unfolding(crate::specs::Reading::failed_at))]
fn failed_at(bytes: &[u8]) -> Result<(Written<'_>, &[u8]), Stop>
    ensures { Gives (λ found. (entry_in found.0, found.1.now)) result (failed_at bytes.now) }
{
    let (pass, rest) = u32_at(bytes)?;
    let (event, rest) = u32_at(rest)?;
    let (fault, rest) = fault_at(rest)?;
    Ok((Written::Failed { pass, event, fault }, rest))
}

/// The entry at the front of bytes, and the bytes behind it.
#[tactic(auto, unfolding(crate::specs::Reading::entry_at, crate::specs::Reading::entry_by))]
pub(crate) fn entry_at(bytes: &[u8]) -> Result<(Written<'_>, &[u8]), Stop>
    ensures { Gives (λ found. (entry_in found.0, found.1.now)) result (entry_at bytes.now) }
{
    let [tag, rest @ ..] = bytes else {
        return Err(short());
    };
    match *tag {
        0 => run_at(rest),
        1 => ask_at(rest),
        2 => delivery_at(rest),
        3 => answered_at(rest),
        4 => failed_at(rest),
        _ => Err(Stop {
            kind: TranscriptKind::Tag,
            left: bytes.len(),
        }),
    }
}

/// The bytes behind the entry at the front.
fn behind_entry(bytes: &[u8]) -> Result<&[u8], Stop>
    ensures { Gives (λ rest. rest.now) result (behind_entry bytes.now) }
{
    match entry_at(bytes) {
        Ok((_, behind)) => Ok(behind),
        Err(first) => Err(first),
    }
}

/// The bytes behind so many entries.
fn behind_entries(count: u32, bytes: &[u8]) -> Result<&[u8], Stop>
    ensures { Gives (λ rest. rest.now) result (behind_entries count bytes.now) }
{
    let mut rest = bytes;
    let mut left = count;
    while left > 0 {
        match behind_entry(rest) {
            Ok(behind) => rest = behind,
            Err(first) => return Err(first),
        }
        left -= 1;
    }
    Ok(rest)
}

#[tactic(auto, unfolding(crate::specs::Reading::behind_byte))]
fn behind_byte(wanted: u8, bytes: &[u8]) -> Result<&[u8], Stop>
    ensures { Gives (λ rest. rest.now) result (behind_byte wanted bytes.now) }
{
    let [first, behind @ ..] = bytes else {
        return Err(short());
    };
    if *first == wanted {
        Ok(behind)
    } else {
        Err(Stop {
            kind: TranscriptKind::Tag,
            left: bytes.len(),
        })
    }
}

/// The bytes behind those that never change.
fn behind_bytes<'a>(wanted: &[u8], bytes: &'a [u8]) -> Result<&'a [u8], Stop>
    ensures { Gives (λ rest. rest.now) result (behind_bytes wanted.now bytes.now) }
{
    let mut rest = bytes;
    for byte in wanted {
        match behind_byte(*byte, rest) {
            Ok(behind) => rest = behind,
            Err(first) => return Err(first),
        }
    }
    Ok(rest)
}

fn behind_head(bytes: &[u8]) -> Result<&[u8], Stop>
    ensures { Gives (λ rest. rest.now) result (behind_bytes transcript_head bytes.now) }
{
    behind_bytes(&HEAD, bytes)
}

/// The entries that are all of these bytes, so many.
fn all_entries(count: u32, bytes: &[u8]) -> Result<Entries<'_>, Stop>
    ensures { ReadsAll count bytes.now result }
{
    match behind_entries(count, bytes) {
        Ok(behind) => {
            if behind.is_empty() {
                Ok(Entries { count, bytes })
            } else {
                Err(Stop {
                    kind: TranscriptKind::Rest,
                    left: behind.len(),
                })
            }
        }
        Err(first) => Err(first),
    }
}

/// The entries behind the head.
fn counted(bytes: &[u8]) -> Result<Entries<'_>, Stop>
    ensures { ReadsCounted bytes.now result }
{
    match u32_at(bytes) {
        Ok((count, rest)) => all_entries(count, rest),
        Err(first) => Err(first),
    }
}

/// The entries of the transcript that these bytes are, or the first fault. The bytes are gone over once
/// from the left; no memory is taken.
pub(crate) fn entries_of(bytes: &[u8]) -> Result<Entries<'_>, Stop>
    ensures { Reads bytes.now result }
{
    match behind_head(bytes) {
        Ok(rest) => counted(rest),
        Err(first) => Err(first),
    }
}
