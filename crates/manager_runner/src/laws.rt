ghost use Rattle.std.specs.Prelude.{◌≡◌, ◌+◌, ◌∷◌, ◌++◌, [], ℕ, List, All, length};
ghost use Rattle.atomic_table.specs.Seated.{TableId};
ghost use Rattle.session_core.specs.declared.opened.Opened.{Opened};
ghost use Rattle.session_core.specs.Session.{Seen};
ghost use Rattle.session_desk.specs.Views.{Known};
ghost use Rattle.session_desk.specs.Opening.{AreOpened, AreOpenedOver, IsFit};

use bench_trait::{ArtefactBook, Bench};
use session_desk::opened_law;

/// A law: where all sessions of a desk were opened with a bench and artefacts, its passes are workers over
/// these and, as the last one, a closer.
pub fn workers_law<B: Bench>(bench: &B, artefacts: &ArtefactBook)
    ensures { (sessions : List (Seen (Opened B))) (many : ℕ) (desk : List TableId) (workers : List (Known (Opened B))) (closer : Known (Opened B)) →
        AreOpened sessions many desk (workers ++ closer ∷ []) →
        AreOpenedOver bench.now artefacts.now sessions →
        (length workers + 1 ≡ many) × All (IsFit bench.now artefacts.now desk) workers × IsFit bench.now artefacts.now desk closer }
{
    opened_law(bench, artefacts);
}
