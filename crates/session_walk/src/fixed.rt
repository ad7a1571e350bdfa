ghost use Rattle.std.specs.Prelude.{◌≡◌, ℕ, List};
ghost use Rattle.bench_trait.specs.declared.artefacts.Artefact.{Artefact};
ghost use Rattle.session_model.specs.Session.{Session};
ghost use Rattle.session_model.specs.Record.{Record};
ghost use Rattle.session_walk.specs.Fixed.{AreOfDigestWalk};

use session_runs::{rounds_law, schedule_law};

/// A law: over one book of artefacts, the walk of a number over the sessions of a job has one list of
/// records, if it is measured by `DigestBench`. It does nothing.
pub fn digests_make_one_walk()
    ensures { (artefacts : List Artefact) (places : List (List ℕ)) (keys : List (List ℕ × List ℕ)) (sessions : List Session) (number : ℕ) (one other : List Record) →
        AreOfDigestWalk artefacts places keys sessions number one →
        AreOfDigestWalk artefacts places keys sessions number other →
        one ≡ other }
{
    rounds_law();
    schedule_law();
}
