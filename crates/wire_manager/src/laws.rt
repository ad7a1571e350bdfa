//! Laws of sessions over links, which the functions of this module carry. They do nothing.

ghost use Rattle.std.specs.Prelude.{◌≡◌, ◌≤◌, ◌++◌, ◌∷◌, [], ◌⊎◌, ℕ, Bool, true, List, None, Some, length};
ghost use Rattle.session_model.specs.Session.{Session};
ghost use Rattle.session_runs.specs.Standing.{Move, Entry, played, answered, is_open, Standing, next};
ghost use Rattle.session_runs.specs.History.{standing_after};
ghost use Rattle.session_runs.specs.Played.{AsksOnly};
ghost use Rattle.session_runs.specs.Touches.{touches_nothing, touch_of, sent_by};
ghost use Rattle.wire_manager.specs.Stages.{stages, Changes};
ghost use Rattle.wire_manager.specs.Requests.{touch_at, touches_in, about, way_of, Begins};
ghost use Rattle.wire_manager.specs.Messages.{Message, found, is_there, with_arrived, message_by, with_message};
ghost use Rattle.wire_manager.specs.Linked.{delivery_count, sending, AreLinked, wire_moves, CanMakeNow, IsUnderWay};

use session_runs::{listing_law, progress_law, touch_law};

/// The law of stages: a possible move changes the stage of the request that it touches, and no other; an answer
/// changes none.
pub fn stage_law()
    ensures played { (session : Session) (keys : List (List ℕ × List ℕ)) (standing after : Standing) (pass : ℕ) (move : Move) →
        next session keys standing (played pass move) ≡ Some after →
        Changes (touch_of standing move) (stages standing.configuration) (stages after.configuration) }
    ensures answered { (session : Session) (keys : List (List ℕ × List ℕ)) (standing after : Standing) (pass event : ℕ) (bytes : List ℕ) →
        next session keys standing (answered pass event bytes) ≡ Some after →
        Changes touches_nothing (stages standing.configuration) (stages after.configuration) }
{}

/// The law of requests: what a history touches of a request is, in this order and each at most once, that it is
/// sent, that it is delivered, that its reply is sent, and that its reply is taken. So no block of a request is
/// started twice.
pub fn request_law()
    ensures way { (session : Session) (keys : List (List ℕ × List ℕ)) (history : List Entry) (standing : Standing) (request : ℕ) →
        standing_after session keys history ≡ Some standing →
        Begins (about request (touches_in session keys history)) (way_of request) }
    ensures once { (session : Session) (keys : List (List ℕ × List ℕ)) (history : List Entry) (standing : Standing) (request : ℕ) →
        standing_after session keys history ≡ Some standing →
        delivery_count request (touches_in session keys history) ≤ 1 }
{}

/// The law of links: what holds of the messages of a history (`AreLinked`) holds when it opens, after each move
/// whose needed request or reply has arrived, after each result, and after each arrival; and what a move sends
/// was not sent before.
pub fn link_law()
    ensures opens { AreLinked [] [] }
    ensures moves { (session : Session) (keys : List (List ℕ × List ℕ)) (history : List Entry) (standing after : Standing) (pass : ℕ) (move : Move) (messages : List Message) →
        standing_after session keys history ≡ Some standing →
        next session keys standing (played pass move) ≡ Some after →
        AreLinked (touches_in session keys history) messages →
        is_there messages (touch_of standing move) ≡ true →
        AreLinked (touches_in session keys (history ++ played pass move ∷ [])) (with_message messages (message_by (touch_of standing move) (sent_by standing move))) }
    ensures rests { (session : Session) (keys : List (List ℕ × List ℕ)) (history : List Entry) (standing : Standing) (entry : Entry) (messages : List Message) →
        standing_after session keys history ≡ Some standing →
        touch_at standing entry ≡ touches_nothing →
        AreLinked (touches_in session keys history) messages →
        AreLinked (touches_in session keys (history ++ entry ∷ [])) messages }
    ensures arrives { (session : Session) (keys : List (List ℕ × List ℕ)) (history : List Entry) (messages : List Message) (reply : Bool) (name : ℕ) →
        AreLinked (touches_in session keys history) messages →
        AreLinked (touches_in session keys history) (with_arrived reply name messages) }
    ensures new { (session : Session) (keys : List (List ℕ × List ℕ)) (history : List Entry) (standing after : Standing) (pass : ℕ) (move : Move) (messages : List Message) (reply : Bool) (name : ℕ) →
        standing_after session keys history ≡ Some standing →
        next session keys standing (played pass move) ≡ Some after →
        AreLinked (touches_in session keys history) messages →
        touch_of standing move ≡ sending reply name →
        found reply name messages ≡ None }
{
    touch_law();
}

/// The law of progress over links: while a session is open, a move is possible whose needed request or reply has
/// arrived, an ask is in flight, or a message has not arrived; and if the places given are all that its phrase
/// asks, such a move is listed.
pub fn wire_progress_law()
    ensures possible { (session : Session) (keys : List (List ℕ × List ℕ)) (history : List Entry) (standing : Standing) (pass : ℕ) (messages : List Message) →
        standing_after session keys history ≡ Some standing →
        standing.state ≡ is_open →
        AreLinked (touches_in session keys history) messages →
        CanMakeNow session keys standing pass messages ⊎ ((1 ≤ length standing.in_flight) ⊎ IsUnderWay messages) }
    ensures listed { (session : Session) (keys : List (List ℕ × List ℕ)) (places : List (List ℕ)) (history : List Entry) (standing : Standing) (messages : List Message) →
        AsksOnly places session.phrase →
        standing_after session keys history ≡ Some standing →
        standing.state ≡ is_open →
        AreLinked (touches_in session keys history) messages →
        (1 ≤ length (wire_moves places standing messages)) ⊎ ((1 ≤ length standing.in_flight) ⊎ IsUnderWay messages) }
{
    progress_law();
    listing_law();
}
