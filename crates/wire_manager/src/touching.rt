//! Whether what a move needs has arrived.
ghost use Rattle.std.specs.Prelude.{◌≡◌};
ghost use Rattle.session_core.specs.Touching.{touch_as};
ghost use Rattle.wire_manager.specs.Messages.{is_there};
ghost use Rattle.wire_manager.specs.Link.{messages_of, IsLink};

use crate::link::Link;
use session_core::Touch;

/// Whether the request or reply has arrived that a move needs which touches this.
pub(crate) fn is_there(link: &Link, touch: Touch) -> bool
    requires { IsLink link.now }
    ensures { result ≡ is_there (messages_of link.now.messages.items) (touch_as touch) }
{
    match touch {
        Touch::Nothing => true,
        Touch::SendsRequest(_) => true,
        Touch::SendsReply(_) => true,
        Touch::NeedsRequest(name) => link.has_arrived(false, name),
        Touch::NeedsReply(name) => link.has_arrived(true, name),
    }
}
