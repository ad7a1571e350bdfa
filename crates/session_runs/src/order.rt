ghost use Rattle.std.specs.Prelude.{◌≡◌, ◌↔◌, ℕ, List, Some, Contains};
ghost use Rattle.session_model.specs.Session.{Session};
ghost use Rattle.session_runs.specs.Standing.{Move, Entry, is_open, Standing};
ghost use Rattle.session_runs.specs.History.{standing_after};
ghost use Rattle.session_runs.specs.MoveOrder.{possible_moves, asks_in_order};
ghost use Rattle.session_runs.specs.Ordered.{Rise, AreApart, event_of_ask, AreInOrder};

/// The law of order: the possible moves of an open session are a delivery at each place where a request
/// waits, in the order of the places given; then the steps without an event, rising by the block; then
/// those with one, rising by the event. If no place is given twice, no move is listed twice, however the
/// session stands; nor is an ask, and the asks in flight are listed rising by their events.
pub fn order_law()
    ensures moves { (session : Session) (keys : List (List ℕ × List ℕ)) (places : List (List ℕ)) (history : List Entry) (standing : Standing) →
        standing_after session keys history ≡ Some standing →
        standing.state ≡ is_open →
        AreInOrder places standing }
    ensures moves_once { (session : Session) (keys : List (List ℕ × List ℕ)) (places : List (List ℕ)) (history : List Entry) (standing : Standing) →
        AreApart (List ℕ) places →
        standing_after session keys history ≡ Some standing →
        AreApart Move (possible_moves places standing) }
    ensures asks { (session : Session) (keys : List (List ℕ × List ℕ)) (history : List Entry) (standing : Standing) →
        standing_after session keys history ≡ Some standing →
        Rise (ℕ × ℕ) event_of_ask (asks_in_order standing.in_flight) }
    ensures asks_once { (session : Session) (keys : List (List ℕ × List ℕ)) (history : List Entry) (standing : Standing) →
        standing_after session keys history ≡ Some standing →
        AreApart (ℕ × ℕ) (asks_in_order standing.in_flight) }
    ensures asks_listed { (in_flight : List (ℕ × ℕ)) (asked : ℕ × ℕ) →
        Contains (asks_in_order in_flight) asked ↔ Contains in_flight asked }
{}
