ghost use Rattle.std.specs.Prelude.{ℕ, List, IsTrue, is_some};
ghost use Rattle.std.specs.List.{AllByRecursion};
ghost use Rattle.phrase_tree.specs.Term.{term};
ghost use Rattle.seal_hmac.specs.Keys.{key_of};
ghost use Rattle.place_check.specs.Places.{keys_of};
ghost use Rattle.place_check.specs.Session.{IsCheckedAgainst, session_of};
ghost use Rattle.avm_compile.specs.Program.{program_of};
ghost use Rattle.session_runs.specs.Ordered.{AreApart};
ghost use Rattle.session_runs.specs.Played.{AsksOnly};
ghost use Rattle.checked_sessions.specs.Named.{place_names};

use avm_compile::blocks_are_where_events_are;
use place_check::{Checked, Places, checked_session_has_keys};

/// A law: no two places have one name. It does nothing.
pub fn places_are_apart(places: &Places)
    ensures { AreApart (List ℕ) (place_names places.now) }
{
    let _ = places.items();
}

/// A law: the phrase of a session that was checked against places asks only these. It does nothing.
pub fn checked_session_asks_places(places: &Places, checked: &Checked)
    requires { IsCheckedAgainst (session_of checked.now) places.now }
    ensures { AsksOnly (place_names places.now) (term checked.now.phrase) }
{
    checked_session_has_keys(places, checked);
}

/// A law: each block of the program of a session that was checked against places is at a place whose
/// key is among theirs, so each `Sign` of it has its key. It does nothing.
pub fn blocks_have_keys(places: &Places, checked: &Checked)
    requires { IsCheckedAgainst (session_of checked.now) places.now }
    ensures { AllByRecursion
        (λ one. IsTrue (is_some (key_of (keys_of places.now) one.place)))
        (program_of (term checked.now.phrase) checked.now.root) }
{
    checked_session_has_keys(places, checked);
    blocks_are_where_events_are();
}
