ghost use Rattle.std.specs.Prelude.{◌≡◌, ◌≢◌, ◌<◌, ◌∷◌, ◌↔◌, ℕ, List, IsTrue, MatchOption};
ghost use Rattle.order_policy.specs.Cut.{Cuts, Lacks, IsLaterText, IsServiceText, SpellsLater, SpellsService};
ghost use Rattle.order_policy.specs.Policy.{IsClaimText, SpellsClaim};

use crate::claim::{Ahead, Claim, Service};
use phrase_tree::Name;

/// What stands ahead of the first such mark in a text, and what stands behind it.
pub(crate) fn cut(text: &str, mark: char) -> Option<(&str, &str)>
    requires { mark < 128 }
    ensures { MatchOption result (Lacks mark text.now) (λ pair. Cuts mark text.now pair.0.now pair.1.now) }
{
    text.split_once(mark)
}

// What stands behind a `<` at the front of a text.
fn behind_mark(text: &str) -> Option<&str>
    ensures { MatchOption result ((rest : List ℕ) → text.now ≢ 60 ∷ rest) (λ rest. text.now ≡ 60 ∷ rest.now) }
{
    text.strip_prefix('<')
}

fn read_service(text: &str) -> Option<Service>
    ensures { MatchOption result (¬ IsServiceText text.now) (λ service. SpellsService text.now service) }
{
    let Some((name, place)) = cut(text, '@') else {
        return None;
    };
    let Some(name) = Name::read(name) else {
        return None;
    };
    let Some(place) = Name::read(place) else {
        return None;
    };
    Some(Service { name, place })
}

// What stands behind the first `<` of a claim.
fn read_later(text: &str) -> Option<(Ahead, Service)>
    ensures { MatchOption result (¬ IsLaterText text.now) (λ pair. SpellsLater text.now pair.0 pair.1) }
{
    match behind_mark(text) {
        Some(rest) => match read_service(rest) {
            Some(later) => Some((Ahead::Every, later)),
            None => None,
        },
        None => match read_service(text) {
            Some(later) => Some((Ahead::One, later)),
            None => None,
        },
    }
}

/// The claim that a text spells; none exactly when it spells none.
pub(crate) fn read_claim(text: &str) -> Option<Claim>
    ensures { MatchOption result (¬ IsClaimText text.now) (λ claim. SpellsClaim text.now claim) }
{
    let Some((front, rest)) = cut(text, '<') else {
        return None;
    };
    let Some(earlier) = read_service(front) else {
        return None;
    };
    let Some((ahead, later)) = read_later(rest) else {
        return None;
    };
    Some(Claim {
        earlier,
        ahead,
        later,
    })
}
