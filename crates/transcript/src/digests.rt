//! The audit over the program's own bench.

ghost use Rattle.std.specs.Prelude.{◌≡◌, Some};
ghost use Rattle.bench_trait.specs.Digest.{digest_answer, LacksArtefact};
ghost use Rattle.session_model.specs.Record.{Record as Meant};
ghost use Rattle.place_check.specs.Places.{keys_of};
ghost use Rattle.place_check.specs.Session.{IsCheckedAgainst, session_of};
ghost use Rattle.transcript.specs.Audit.{IsAudit, IsFinishedText, IsUnlessMemory};

use crate::auditing::{AuditError, audit};
use bench_trait::{ArtefactBook, DigestBench};
use place_check::{Checked, Places};
use session_model::Record;
use std::alloc::Global;

/// The audit of a transcript over the bench that measures by digests, which has one result for each
/// question. So unless memory runs out a transcript is accepted exactly if it is that of a legal history
/// that is done or failed; and the record is that history's.
pub fn audit_by_digests(
    alloc: Global,
    checked: &Checked,
    places: &Places,
    artefacts: &ArtefactBook,
    bytes: &[u8],
) -> Result<Record, AuditError>
    requires { IsCheckedAgainst (session_of checked.now) places.now }
    // Each answer has its cause.
    ensures answers { IsAudit
        (λ ask answer. digest_answer artefacts.now ask ≡ Some answer)
        (λ ask fault. LacksArtefact artefacts.now ask fault)
        (λ ask. ⊥)
        (session_of checked.now)
        (keys_of places.now)
        bytes.now
        result }
    // A legal history that is done or failed is accepted.
    ensures accepted { (found : Meant) →
        IsFinishedText
        (λ ask answer. digest_answer artefacts.now ask ≡ Some answer)
        (λ ask fault. LacksArtefact artefacts.now ask fault)
        (λ ask. ⊥)
        (session_of checked.now)
        (keys_of places.now)
        bytes.now
        found →
        IsUnlessMemory found result }
{
    audit(alloc, checked, places, artefacts, &DigestBench, bytes)
}
