ghost use Rattle.std.specs.Prelude.{◌≡◌, ◌<◌, ◌^◌, length};
ghost use Rattle.job_reader.specs.Texts.{written_session, written_sessions};
ghost use Rattle.job_reader.specs.Whole.{FindsBadPhrase};
ghost use Rattle.job_reader.specs.Testing.{AreReadFrom, Passes, read_sessions, ReadsSession};

use crate::refusal::JobError;
use crate::sessions::SessionText;
use phrase_reader::{ReadError, read};
use phrase_tree::{Phrase, Place};
use std::alloc::Global;

/// A session whose phrase is read.
#[derive(Drop)]
pub(crate) struct ReadSession {
    pub root: Place,
    pub nonce: [u8; 16],
    pub phrase: Phrase,
}

fn read_session(
    alloc: Global,
    index: u32,
    session: &SessionText<'_>,
) -> Result<ReadSession, JobError>
    ensures { ReadsSession index (written_session session.now) result }
{
    match read(alloc, session.phrase) {
        Ok(phrase) => Ok(ReadSession {
            root: session.root,
            nonce: session.nonce,
            phrase,
        }),
        Err(ReadError::Refused { at, kind }) => Err(JobError::BadPhrase {
            session: index,
            at,
            kind,
        }),
        Err(ReadError::NoMemory) => Err(JobError::NoMemory),
    }
}

/// The sessions with their phrases, if no text is refused.
pub(crate) fn read_all_sessions(
    alloc: Global,
    sessions: &[SessionText<'_>],
) -> Result<Vec<ReadSession>, JobError>
    requires { length sessions.now < 2 ^ 32 }
    ensures { Passes (FindsBadPhrase (written_sessions sessions.now)) (λ list. AreReadFrom (written_sessions sessions.now) (read_sessions list.items)) result }
{
    let mut list = Vec::new(alloc);
    for (index, session) in sessions.iter().enumerate() {
        match read_session(alloc, index as u32, session) {
            Ok(read) => list.push(read)?,
            Err(error) => return Err(error),
        }
    }
    Ok(list)
}
