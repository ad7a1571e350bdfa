ghost use Rattle.place_check.specs.Places.{keys_of};
ghost use Rattle.place_check.specs.Session.{IsCheckedAgainst, SessionHasKeys, session_of};

use crate::places::Places;
use crate::session::Checked;

/// A law: each event of a session that was checked against places happens at a place whose key is
/// among theirs. It does nothing.
pub fn checked_session_has_keys(_places: &Places, _checked: &Checked)
    requires { IsCheckedAgainst (session_of _checked.now) _places.now }
    ensures { SessionHasKeys (session_of _checked.now) (keys_of _places.now) }
{}
