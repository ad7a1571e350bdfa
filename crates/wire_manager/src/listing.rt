//! The moves of a session over links, and the frames that it sent, by index.
ghost use Rattle.std.specs.Prelude.{◌≡◌, ◌<◌, length, slice_get, slice_index_or};
ghost use Rattle.std.specs.Option.{option_map};
ghost use Rattle.session_runs.specs.MoveOrder.{possible_moves};
ghost use Rattle.session_runs.specs.Standing.{Move as SessionMove, Standing};
ghost use Rattle.session_runs.specs.Touches.{touch_of};
ghost use Rattle.session_book.specs.Entries.{move_of};
ghost use Rattle.session_core.specs.Session.{places_in, StandsAt};
ghost use Rattle.wire_manager.specs.Messages.{is_there};
ghost use Rattle.wire_manager.specs.Linked.{wire_moves};
ghost use Rattle.wire_manager.specs.Link.{messages_of, frame_of, at_number, IsLink};

use crate::link::Link;
use crate::touching::is_there;
use bench_trait::Bench;
use byte_ports::Bytes;
use session_core::{Move, Session};

/// Whether the session's possible move at an index is possible over links.
fn can_nth<B: Bench>(session: &Session<'_, B>, link: &Link, index: u32) -> bool
    requires { IsLink link.now }
    ensures { (standing : Standing) (other : SessionMove) → StandsAt session.now standing →
        index < length (possible_moves (places_in session.now.opening) standing) →
        result ≡ is_there (messages_of link.now.messages.items) (touch_of standing (slice_index_or (possible_moves (places_in session.now.opening) standing) index other)) }
{
    match session.nth_move(index) {
        Some(step) => is_there(link, session.touches(&step)),
        None => false,
    }
}

/// The number of moves that are possible over links.
pub(crate) fn move_count<B: Bench>(session: &Session<'_, B>, link: &Link) -> u32
    requires { IsLink link.now }
    ensures { (standing : Standing) → StandsAt session.now standing →
        result ≡ length (wire_moves (places_in session.now.opening) standing (messages_of link.now.messages.items)) }
{
    session.legal();
    let mut count = 0;
    for index in 0..session.move_count() {
        if can_nth(session, link, index) {
            count += 1;
        }
    }
    count
}

/// The move that is possible over links at an index, in the order of the session's. None exactly if there are
/// no more than that.
pub(crate) fn nth_move<B: Bench>(session: &Session<'_, B>, link: &Link, index: u32) -> Option<Move>
    requires { IsLink link.now }
    ensures { (standing : Standing) → StandsAt session.now standing →
        option_map move_of result ≡ slice_get (wire_moves (places_in session.now.opening) standing (messages_of link.now.messages.items)) index }
{
    session.legal();
    let mut ahead = 0;
    for at in 0..session.move_count() {
        if can_nth(session, link, at) {
            if ahead == index {
                return session.nth_move(at);
            }
            ahead += 1;
        }
    }
    None
}

/// The bytes of the frame that was sent at an index.
pub(crate) fn nth_sent(link: &Link, index: u32) -> Option<&Bytes>
    ensures { option_map (λ bytes. bytes.now) result ≡ option_map frame_of (at_number link.now.messages.items (slice_get link.now.sent.items index)) }
{
    match link.sent.get(index as usize) {
        Some(number) => match link.messages.get(*number as usize) {
            Some(kept) => Some(&kept.frame),
            None => None,
        },
        None => None,
    }
}
