ghost use Rattle.std.specs.Prelude.{◌≡◌, IfOk};
ghost use Rattle.job_reader.specs.Accepted.{HasCheckedSessions, job_view};
ghost use Rattle.load_maker.specs.Job.{made_job};

use crate::artefacts::made_artefacts;
use crate::draws::Draws;
use crate::places::made_places;
use crate::references::made_references;
use crate::sessions::made_sessions;
use job_reader::Job;
use phrase_tree::NoMemory;
use std::alloc::Global;

/// The made job of a number: eight places, 64 artefacts, 256 sessions, each checked against the places,
/// 576 references, and no bundle. An error is want of memory, and nothing else. It takes the time of
/// drawing some 10,000 numbers and of as many digests as there are references.
pub fn load_job(alloc: Global, number: u32) -> Result<Job, NoMemory>
    ensures made { IfOk result (λ job. job_view job ≡ made_job number) }
    ensures checked { IfOk result HasCheckedSessions }
{
    let mut draws = Draws::first(number);
    let places = made_places(alloc)?;
    let artefacts = made_artefacts(alloc, &mut draws)?;
    let sessions = made_sessions(alloc, &places, number, &mut draws)?;
    let references = made_references(alloc, &artefacts)?;
    Ok(Job {
        places,
        artefacts,
        sessions,
        references,
        bundle: None,
    })
}
