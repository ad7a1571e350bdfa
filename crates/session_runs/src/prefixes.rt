ghost use Rattle.std.specs.Prelude.{◌≡◌, ◌≤◌, ℕ, List, ◌++◌, Some, length};
ghost use Rattle.session_model.specs.Session.{Session};
ghost use Rattle.session_runs.specs.Standing.{Entry, Standing};
ghost use Rattle.session_runs.specs.History.{standing_after, IsLegal};

use bench_trait::{ArtefactBook, Bench};

/// The law of prefixes: what a history begins with is a history that the session can have, if it has at
/// least the opening, and it is legal if the whole is.
pub fn prefix_law<B: Bench>(bench: &B, artefacts: &ArtefactBook)
    ensures stands { (session : Session) (keys : List (List ℕ × List ℕ)) (history more : List Entry) (later : Standing) →
        1 ≤ length history →
        standing_after session keys (history ++ more) ≡ Some later →
        (standing : Standing) × (standing_after session keys history ≡ Some standing) }
    ensures legal { (session : Session) (keys : List (List ℕ × List ℕ)) (history more : List Entry) (later : Standing) →
        1 ≤ length history →
        IsLegal
        (λ ask answer. B.gives bench.now artefacts.now ask answer)
        (λ ask fault. B.fails bench.now artefacts.now ask fault)
        (λ ask. B.starves bench.now artefacts.now ask)
        session
        keys
        (history ++ more)
        later →
        (standing : Standing) × IsLegal
        (λ ask answer. B.gives bench.now artefacts.now ask answer)
        (λ ask fault. B.fails bench.now artefacts.now ask fault)
        (λ ask. B.starves bench.now artefacts.now ask)
        session
        keys
        history
        standing }
{}
