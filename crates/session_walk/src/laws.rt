ghost use Rattle.std.specs.Prelude.{◌≡◌, ℕ, List, [], Option, Some, length, slice_get};
ghost use Rattle.bench_trait.specs.declared.artefacts.Artefact.{Artefact};
ghost use Rattle.session_model.specs.Session.{Session};
ghost use Rattle.session_model.specs.Record.{numbers_below};
ghost use Rattle.session_runs.specs.Schedule.{Walked, all_opened, first_from};
ghost use Rattle.session_runs.specs.Played.{AskOnly};
ghost use Rattle.session_walk.specs.Drawn.{CanGoOn, IsDrawn};
ghost use Rattle.session_walk.specs.Taken.{TakesCandidate};
ghost use Rattle.session_walk.specs.UnderWay.{IsWalking, IsRoundOn, AreScheduled};

use bench_trait::Bench;
use session_runs::{length_law, order_law, progress_law, result_count_law, result_law, rounds_law};

/// The law of walks, for a loop that measures as it goes: sessions just opened are walked; a session that
/// is listed as open is open and has a candidate, and its asks in flight are its own; if an open session and one of its candidates are drawn,
/// and the session goes on by that candidate, with whatever result the bench gives, the sessions are walked
/// on; and once none is open, they are as the schedule plays them. It does nothing.
pub fn walk_law<B: Bench>()
    ensures begins { (bench : B) (artefacts : List Artefact) (places : List (List ℕ)) (keys : List (List ℕ × List ℕ)) (sessions : List Session) (number : ℕ) →
        AskOnly places sessions →
        IsWalking
        (B.gives bench artefacts)
        (B.fails bench artefacts)
        (B.starves bench artefacts)
        places
        keys
        sessions
        number
        (all_opened sessions)
        (numbers_below (length sessions))
        (first_from number) }
    ensures listed { (bench : B) (artefacts : List Artefact) (places : List (List ℕ)) (keys : List (List ℕ × List ℕ)) (sessions : List Session) (number : ℕ) (all : List Walked) (going : List ℕ) (from : Option ℕ) (drawn played : ℕ) →
        AskOnly places sessions →
        IsWalking
        (B.gives bench artefacts)
        (B.fails bench artefacts)
        (B.starves bench artefacts)
        places
        keys
        sessions
        number
        all
        going
        from →
        slice_get going drawn ≡ Some played →
        (walked : Walked) × (slice_get all played ≡ Some walked) × CanGoOn places walked }
    ensures goes_on { (bench : B) (artefacts : List Artefact) (places : List (List ℕ)) (keys : List (List ℕ × List ℕ)) (sessions : List Session) (number : ℕ) (all : List Walked) (going : List ℕ) (from : Option ℕ) (drawn played : ℕ) (before after : Walked) (index : ℕ) (later : Option ℕ) →
        AskOnly places sessions →
        IsWalking
        (B.gives bench artefacts)
        (B.fails bench artefacts)
        (B.starves bench artefacts)
        places
        keys
        sessions
        number
        all
        going
        from →
        IsDrawn places all going from drawn played before index later →
        TakesCandidate
        (B.gives bench artefacts)
        (B.fails bench artefacts)
        (B.starves bench artefacts)
        places
        keys
        index
        before
        after →
        IsRoundOn
        (B.gives bench artefacts)
        (B.fails bench artefacts)
        (B.starves bench artefacts)
        places
        keys
        sessions
        number
        all
        going
        drawn
        played
        after
        later }
    ensures ends { (bench : B) (artefacts : List Artefact) (places : List (List ℕ)) (keys : List (List ℕ × List ℕ)) (sessions : List Session) (number : ℕ) (all : List Walked) (from : Option ℕ) →
        AskOnly places sessions →
        IsWalking
        (B.gives bench artefacts)
        (B.fails bench artefacts)
        (B.starves bench artefacts)
        places
        keys
        sessions
        number
        all
        []
        from →
        AreScheduled
        (B.gives bench artefacts)
        (B.fails bench artefacts)
        (B.starves bench artefacts)
        places
        keys
        sessions
        number
        all }
{
    length_law();
    order_law();
    progress_law();
    result_count_law();
    result_law();
    rounds_law();
}
