ghost use Rattle.std.specs.Prelude.{◌≡◌, ◌↔◌, ℕ, Some, Err, IsNone, IfOk, MatchOption, MatchResult};
ghost use Rattle.order_policy.specs.Cut.{AddsClaim, IsPartError, IsReadError};
ghost use Rattle.order_policy.specs.Policy.{IsBadAt, IsClaimText, IsPolicyText, SpellsPolicy};

use crate::claim::Claim;
use crate::reading::{cut, read_claim};
use std::alloc::Global;
use std::marker::Model;

/// The greatest number of claims of a policy.
pub const CLAIMS: u32 = 64;

/// Claims in the order in which they were written.
#[derive(Debug, Drop)]
pub struct OrderPolicy {
    claims: Vec<Claim>,
}

impl Model for OrderPolicy {
    ghost use Rattle.std.specs.Prelude.{List};
    ghost use Rattle.order_policy.specs.declared.claim.Claim.{Claim};

    ghost Value = { List Claim };

    ghost view = { λ policy. policy.claims.items };
}

/// Why a text was not read as a policy.
#[derive(Clone, Copy, Debug, PartialEq, Eq)]
pub enum PolicyError {
    /// The text is no policy text. Its parts are counted from 0; this is the first that is no claim, or
    /// 64 if there are more and the first 64 are claims.
    Bad { claim: u32 },
    NoMemory,
}

impl OrderPolicy {
    /// The policy that a text spells: 1 to 64 claims with `;` between them, and no spaces. A claim is
    /// `A@P<B@Q`, each measurement of B at Q has one of A at P ahead of it, or `A@P<<B@Q`, each measurement
    /// of A at P is ahead of each of B at Q.
    pub fn read(alloc: Global, text: &str) -> Result<OrderPolicy, PolicyError>
        ensures ok { IfOk result (λ policy. SpellsPolicy text.now policy) }
        ensures bad { (claim : ℕ) → (result ≡ Err (PolicyError.Bad claim)) ↔ IsBadAt text.now claim }
    {
        if let Some(claim) = bad_claim(text) {
            return Err(PolicyError::Bad { claim });
        }
        claims_of(alloc, text)
    }

    pub fn claims(&self) -> &[Claim]
        ensures { result.now ≡ self.now }
    {
        &self.claims
    }
}

/// The first part of a text that is no claim, or 64 if there are more parts and the first 64 are claims;
/// none exactly when the text is a policy text. Takes no memory.
pub fn bad_claim(text: &str) -> Option<u32>
    ensures none { IsNone result ↔ IsPolicyText text.now }
    ensures bad { (claim : ℕ) → (result ≡ Some claim) ↔ IsBadAt text.now claim }
{
    first_bad(text)
}

fn first_bad(text: &str) -> Option<u32>
    ensures { MatchOption result (IsPolicyText text.now) (λ claim. IsBadAt text.now claim) }
{
    let mut rest = text;
    for claim in 0..CLAIMS {
        let Some((part, more)) = cut(rest, ';') else {
            return last_bad(rest, claim);
        };
        let Some(_claim) = read_claim(part) else {
            return Some(claim);
        };
        rest = more;
    }
    Some(CLAIMS)
}

// The number, unless the text spells a claim.
fn last_bad(text: &str, number: u32) -> Option<u32>
    ensures { MatchOption result (IsClaimText text.now) (λ claim. (claim ≡ number) × (¬ IsClaimText text.now)) }
{
    match read_claim(text) {
        Some(_) => None,
        None => Some(number),
    }
}

// The claims that a text spells, in order, or what is wrong.
fn claims_of(alloc: Global, text: &str) -> Result<OrderPolicy, PolicyError>
    ensures { MatchResult result (λ policy. SpellsPolicy text.now policy) (λ error. IsReadError text.now error) }
{
    let mut claims = Vec::new(alloc);
    let mut rest = text;
    for number in 0..CLAIMS {
        let Some((part, more)) = cut(rest, ';') else {
            return with_last(claims, rest, number);
        };
        if let Err(error) = push_claim(&mut claims, part, number) {
            return Err(error);
        }
        rest = more;
    }
    Err(PolicyError::Bad { claim: CLAIMS })
}

// The policy of these claims and of the one that the last part spells.
fn with_last(mut claims: Vec<Claim>, part: &str, number: u32) -> Result<OrderPolicy, PolicyError>
    ensures { MatchResult result (λ policy. AddsClaim part.now claims.items policy) (λ error. IsPartError part.now number error) }
{
    match push_claim(&mut claims, part, number) {
        Ok(()) => Ok(OrderPolicy { claims }),
        Err(error) => Err(error),
    }
}

// Appends the claim that the part of this number spells.
fn push_claim(claims: &mut Vec<Claim>, part: &str, number: u32) -> Result<(), PolicyError>
    ensures { MatchResult result (λ _. AddsClaim part.now claims.old.items claims.new.items) (λ error. IsPartError part.now number error) }
{
    let Some(claim) = read_claim(part) else {
        return Err(PolicyError::Bad { claim: number });
    };
    match claims.push(claim) {
        Ok(()) => Ok(()),
        Err(_) => Err(PolicyError::NoMemory),
    }
}
