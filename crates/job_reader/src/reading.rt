ghost use Rattle.std.specs.Prelude.{◌≡◌, ◌↔◌, IfOk};
ghost use Rattle.serde_json.specs.View.{view};
ghost use Rattle.job_reader.specs.Accepted.{AnswersTree, finding_of, HasCheckedSessions, UnlessNoMemory};
ghost use Rattle.job_reader.specs.Finding.{Finding, IsFinding};

use crate::accepted::Job;
use crate::form::FormError;
use crate::refusal::JobError;
use crate::whole::accept;
use crate::written::written_in;
use serde_json::Value;
use std::alloc::Global;

fn job_in(alloc: Global, appraise: bool, tree: &Value) -> Result<Job, JobError>
    ensures answer { AnswersTree appraise (view tree.now) result }
    ensures checked { IfOk result HasCheckedSessions }
{
    match written_in(alloc, appraise, tree) {
        Ok(text) => accept(alloc, text),
        Err(FormError::Fault { at, kind }) => Err(JobError::BadJob { at, kind }),
        Err(FormError::NoMemory) => Err(JobError::NoMemory),
    }
}

/// The job that these bytes are, or its first refusal, in the order of `JobError`: the bytes are not a
/// JSON text; the first fault of form, by a walk over the tree; or what is found by the first test over
/// the whole job that finds something. With `appraise` the job must have a bundle. Each session of the
/// job was checked against its places. Takes time in the length of the bytes, and in the logarithm of
/// the number of artefacts, of sessions and of references for each of them; if there is no memory for
/// an index of the references, each is compared with the earlier ones.
pub fn job_of(alloc: Global, bytes: &[u8], appraise: bool) -> Result<Job, JobError>
    // What the bytes turn out to be.
    ensures finding { UnlessNoMemory result (IsFinding bytes.now appraise (finding_of result)) }

    // Each answer comes exactly at its kind of bytes.
    ensures exact { (finding : Finding) → UnlessNoMemory result ((finding_of result ≡ finding) ↔ IsFinding bytes.now appraise finding) }

    // What a caller needs of each session.
    ensures checked { IfOk result HasCheckedSessions }
{
    match Value::from_slice(alloc, bytes) {
        Ok(tree) => job_in(alloc, appraise, &tree),
        Err(error) => {
            if error.is_memory() {
                Err(JobError::NoMemory)
            } else {
                Err(JobError::NotJson)
            }
        }
    }
}
