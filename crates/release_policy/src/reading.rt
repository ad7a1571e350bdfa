ghost use Rattle.std.specs.Prelude.{◌≡◌, ◌≢◌, ◌<◌, ◌≤◌, ◌∷◌, ◌++◌, [], ℕ, List, Option, length, MatchOption};
ghost use Rattle.release_policy.specs.PolicyText.{AreOfRule, HasPolicy, IsBadPart, IsReading, IsRuleText, mode_text, parts};
ghost use Rattle.release_policy.specs.Parts.{IsReadingOf, TakesPart};
ghost use Rattle.release_policy.specs.Cuts.{HasNone, IsCut};
ghost use Rattle.release_policy.specs.declared.rule.Mode.{Mode};
ghost use Rattle.release_policy.specs.Patterns.{IsPatternText};
ghost use Rattle.release_policy.specs.declared.rule.Rule.{Rule};

use crate::pattern::Pattern;
use crate::policy::{RULES, ReleaseError, ReleasePolicy};
use crate::rule::{Mode, Rule, add};
use phrase_tree::Name;
use std::alloc::Global;

/// A text cut at its first separator; none if it has none.
fn cut(text: &str, separator: char) -> Option<(&str, &str)>
    requires { separator < 128 }
    ensures { MatchOption result (HasNone separator text.now) (λ pair. IsCut separator text.now pair.0.now pair.1.now) }
{
    text.split_once(separator)
}

/// The first part of a text, and what is behind its semicolon, if there is one.
fn front(text: &str) -> (&str, Option<&str>)
    ensures { MatchOption result.1 (parts text.now ≡ result.0.now ∷ []) (λ rest. (parts text.now ≡ result.0.now ∷ parts rest.now) × (length rest.now < length text.now)) }
{
    match cut(text, ';') {
        Some((part, rest)) => (part, Some(rest)),
        None => (text, None),
    }
}

fn pattern_of(text: &str) -> Option<Pattern>
    ensures { MatchOption result ((pattern : Option (List ℕ)) → IsPatternText text.now pattern → ⊥) (IsPatternText text.now) }
{
    if text == "*" {
        return Some(Pattern::any());
    }
    match Name::read(text) {
        Some(name) => Some(Pattern::only(name)),
        None => None,
    }
}

fn mode_of(text: &str) -> Option<Mode>
    ensures { MatchOption result ((mode : Mode) → text.now ≢ mode_text mode) (λ mode. text.now ≡ mode_text mode) }
{
    if text == "bare" {
        return Some(Mode::FromBare);
    }
    if text == "seal" {
        return Some(Mode::FromSealed);
    }
    if text == "hash" {
        return Some(Mode::FromHashed);
    }
    if text == "none" {
        return Some(Mode::Never);
    }
    None
}

/// The rule whose parts have these texts; none if there is no such rule.
fn rule_with(place: &str, measurement: &str, mode: &str, receiver: &str) -> Option<Rule>
    ensures { MatchOption result ((rule : Rule) → AreOfRule place.now measurement.now mode.now receiver.now rule → ⊥) (AreOfRule place.now measurement.now mode.now receiver.now) }
{
    let place = match pattern_of(place) {
        Some(pattern) => pattern,
        None => return None,
    };
    let measurement = match pattern_of(measurement) {
        Some(pattern) => pattern,
        None => return None,
    };
    let mode = match mode_of(mode) {
        Some(mode) => mode,
        None => return None,
    };
    match pattern_of(receiver) {
        Some(receiver) => Some(Rule {
            place,
            measurement,
            mode,
            receiver,
        }),
        None => None,
    }
}

/// The rule whose text this is; none if it is that of no rule.
fn rule_of(text: &str) -> Option<Rule>
    ensures { MatchOption result ((rule : Rule) → IsRuleText text.now rule → ⊥) (IsRuleText text.now) }
{
    let (place, rest) = match cut(text, ':') {
        Some(pair) => pair,
        None => return None,
    };
    let (measurement, rest) = match cut(rest, '=') {
        Some(pair) => pair,
        None => return None,
    };
    let (mode, receiver) = match cut(rest, '>') {
        Some(pair) => pair,
        None => return None,
    };
    rule_with(place, measurement, mode, receiver)
}

/// One more rule, of the next part of a policy's text.
fn read_part(rules: &mut Vec<Rule>, part: &str) -> Result<(), ReleaseError>
    requires { length rules.old.items ≤ RULES }
    ensures { TakesPart rules.old.items part.now rules.new.items result }
{
    let number = rules.len() as u32;
    if number == RULES {
        return Err(ReleaseError::Bad { rule: number });
    }
    match rule_of(part) {
        Some(rule) => match add(rules, rule) {
            Ok(()) => Ok(()),
            Err(_) => Err(ReleaseError::NoMemory),
        },
        None => Err(ReleaseError::Bad { rule: number }),
    }
}

/// The rules of a policy's text.
fn rules_of(alloc: Global, text: &str) -> Result<Vec<Rule>, ReleaseError>
    ensures { IsReadingOf text.now result }
{
    let mut rules = Vec::new(alloc);
    let mut left = text;
    'parts: loop {
        let (part, behind) = front(left);
        match read_part(&mut rules, part) {
            Ok(()) => {}
            Err(error) => return Err(error),
        }
        match behind {
            Some(rest) => left = rest,
            None => return Ok(rules),
        }
    }
}

/// The part of a text that `ReleasePolicy::read` would name as bad; none exactly if the text is that of a
/// policy. Takes no memory, and time linear in the text.
pub fn bad_part(text: &str) -> Option<u32>
    ensures { MatchOption result (HasPolicy text.now) (IsBadPart text.now) }
{
    let mut left = text;
    let mut number = 0;
    'parts: loop {
        let (part, behind) = front(left);
        if number == RULES {
            return Some(number);
        }
        match rule_of(part) {
            Some(_) => number += 1,
            None => return Some(number),
        }
        match behind {
            Some(rest) => left = rest,
            None => return None,
        }
    }
}

impl ReleasePolicy {
    /// The policy of a text: 1 to 256 rules `PLACE:ASP=MODE>WHO`, joined by `;`, without spaces. PLACE,
    /// ASP and WHO are each a name or `*`, and MODE is `bare`, `seal`, `hash` or `none`. The error names
    /// the first part between semicolons that is no rule, or 256 if so many rules stand before one more
    /// part; or it is want of memory. Takes time linear in the text.
    pub fn read(alloc: Global, text: &str) -> Result<ReleasePolicy, ReleaseError>
        ensures { IsReading text.now result }
    {
        match rules_of(alloc, text) {
            Ok(rules) => Ok(ReleasePolicy::of(rules)),
            Err(error) => Err(error),
        }
    }
}
