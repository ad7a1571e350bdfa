ghost use Rattle.std.specs.Prelude.{◌≡◌, IfOk, Option};
ghost use Rattle.place_check.specs.Session.{session_of};
ghost use Rattle.release_policy.specs.Denials.{first_denial};
ghost use Rattle.release_policy.specs.Walked.{IsStoppedBy};
ghost use Rattle.release_policy.specs.declared.denied.Denial.{Denial};

use crate::denied::Denial;
use crate::evidence::Evidence;
use crate::judge::Judge;
use crate::policy::ReleasePolicy;
use crate::walk::Stop;
use phrase_tree::NoMemory;
use place_check::Checked;
use std::alloc::Global;

/// What a policy denies first of a session, in the order of the requests and replies, and then of the
/// measurements in the preorder of the evidence that goes there; none exactly if it denies nothing. An
/// error is want of memory.
///
/// It walks the phrase once, and holds the measurements of the evidence, of which there are at most 254.
/// A request and a reply look at each of them once, and a seal, a hash and a branch once more at most;
/// the rules are looked through once for each measurement's place, name and receiver that differ.
pub fn denial(
    alloc: Global,
    policy: &ReleasePolicy,
    checked: &Checked,
) -> Result<Option<Denial>, NoMemory>
    ensures { IfOk result (λ found. found ≡ first_denial policy.now (session_of checked.now)) }
{
    let mut judge = Judge::of(alloc, policy);
    let mut evidence = Evidence::none(alloc);
    let root = checked.root();
    match judge.walk(checked.phrase(), &root, 0, &mut evidence) {
        Ok(_) => Ok(None),
        Err(stop) => found(stop),
    }
}

/// The denial at which a walk stopped.
fn found(stop: Stop) -> Result<Option<Denial>, NoMemory>
    ensures { (first : Option Denial) → IsStoppedBy first stop → IfOk result (λ found. found ≡ first) }
{
    match stop {
        Stop::Denied(denial) => Ok(Some(denial)),
        Stop::NoMemory => Err(NoMemory),
    }
}
