ghost use Rattle.std.specs.Prelude.{◌≡◌, ◌<◌, ◌^◌, ◌≤◌, ◌+◌, ◌&&◌, max, nat_le, count_by, length};
ghost use Rattle.order_policy.specs.Claims.{is_same};
ghost use Rattle.order_policy.specs.Measured.{bounds_of, first_below, first_bare};

use crate::claim::{Claim, Service};
use crate::label::Label;
use crate::measured::Measured;

/// Numbers that are more than some labels.
#[derive(Clone, Copy, Debug, PartialEq, Eq)]
pub(crate) struct Bounds {
    pub(crate) first: u64,
    pub(crate) second: u64,
}

impl Bounds {
    // More than these labels too.
    fn with(self, label: Label) -> Bounds
        ensures { result ≡ record { first = max self.first (label.first + 1); second = max self.second (label.second + 1) } }
    {
        Bounds {
            first: self.first.max(u64::from(label.first) + 1),
            second: self.second.max(u64::from(label.second) + 1),
        }
    }

    // Whether neither label is less than its bound.
    fn are_within(self, label: Label) -> bool
        ensures { result ≡ (nat_le self.first label.first && nat_le self.second label.second) }
    {
        self.first <= u64::from(label.first) && self.second <= u64::from(label.second)
    }
}

fn bounds_of(measured: &[Measured], wanted: &Service) -> Bounds
    ensures { result ≡ bounds_of wanted.now (record { first = 0; second = 0 }) measured.now }
{
    let mut bounds = Bounds {
        first: 0,
        second: 0,
    };
    for one in measured {
        if wanted.is_same(&one.service) {
            bounds = bounds.with(one.label);
        }
    }
    bounds
}

fn first_below(measured: &[Measured], wanted: &Service, bounds: Bounds) -> Option<u32>
    ensures { result ≡ first_below wanted.now bounds measured.now }
{
    for one in measured {
        if wanted.is_same(&one.service) && !bounds.are_within(one.label) {
            return Some(one.label.first);
        }
    }
    None
}

/// The first measurement of the later service that not every one of the earlier service is before.
pub(crate) fn first_ahead_of_some(measured: &[Measured], claim: &Claim) -> Option<u32>
    ensures { result ≡ first_below claim.now.later (bounds_of claim.now.earlier (record { first = 0; second = 0 }) measured.now) measured.now }
{
    first_below(measured, &claim.later, bounds_of(measured, &claim.earlier))
}

/// The first measurement of the later service that none of the earlier service is before.
pub(crate) fn first_bare(measured: &[Measured], claim: &Claim) -> Option<u32>
    ensures { result ≡ first_bare claim.now u32.MAX measured.now }
{
    let mut least = u32::MAX;
    for one in measured {
        if claim.later.is_same(&one.service) && one.label.second <= least {
            return Some(one.label.first);
        }
        if claim.earlier.is_same(&one.service) {
            least = least.min(one.label.second);
        }
    }
    None
}

/// How many measurements of a service there are.
pub(crate) fn count_among(measured: &[Measured], wanted: &Service) -> usize
    ensures { result ≡ count_by (λ one. is_same wanted.now one.service) measured.now }
{
    measured
        .iter()
        .filter(|one| wanted.is_same(&one.service))
        .count()
}
