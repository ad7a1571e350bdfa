ghost use Rattle.std.specs.Prelude.{◌<◌, ◌^◌, length};
ghost use Rattle.job_reader.specs.Testing.{AreReady, ChecksAll, ChecksSession, IsReady, read_session, read_sessions};

use crate::phrases::ReadSession;
use crate::refusal::JobError;
use place_check::{Checked, PlaceFault, Places, check};
use std::alloc::Global;

fn check_session(places: &Places, index: u32, session: ReadSession) -> Result<Checked, JobError>
    requires { IsReady places.now (read_session session) }
    ensures { ChecksSession places.now index (read_session session) result }
{
    match check(places, session.root, session.nonce, session.phrase) {
        Ok(checked) => Ok(checked),
        Err(PlaceFault::Misplaced { event, kind }) => Err(JobError::Misplaced {
            session: index,
            event,
            kind,
        }),
        Err(PlaceFault::Oversize { event }) => Err(JobError::Oversize {
            session: index,
            event,
        }),
    }
}

/// The sessions, if nothing keeps any of them from being run.
pub(crate) fn check_sessions(
    alloc: Global,
    places: &Places,
    sessions: Vec<ReadSession>,
) -> Result<Vec<Checked>, JobError>
    requires few { length sessions.items < 2 ^ 32 }
    requires ready { AreReady places.now (read_sessions sessions.items) }
    ensures { ChecksAll places.now (read_sessions sessions.items) result }
{
    let mut list = Vec::new(alloc);
    let mut index = 0;
    for session in sessions {
        match check_session(places, index, session) {
            Ok(checked) => list.push(checked)?,
            Err(error) => return Err(error),
        }
        index += 1;
    }
    Ok(list)
}
