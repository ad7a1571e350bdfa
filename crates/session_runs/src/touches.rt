ghost use Rattle.std.specs.Prelude.{◌≡◌, ℕ, List, Some};
ghost use Rattle.session_model.specs.Session.{Session};
ghost use Rattle.session_runs.specs.Standing.{Move, played, Standing, next};
ghost use Rattle.session_runs.specs.Touches.{touch_of, sent_by, IsTouched};

/// The law of touches: a possible move that sends a request puts it last among those that wait, and its
/// event happens; one that needs a request takes it from there; one that sends a reply has no event, and
/// one that needs a reply has one; all others leave the requests as they are. A move sends evidence just
/// where it sends a request or a reply.
pub fn touch_law()
    ensures { (session : Session) (keys : List (List ℕ × List ℕ)) (standing after : Standing) (pass : ℕ) (move : Move) →
        next session keys standing (played pass move) ≡ Some after →
        IsTouched (touch_of standing move) (sent_by standing move) standing after }
{}
