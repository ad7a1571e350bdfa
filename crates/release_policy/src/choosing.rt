ghost use Rattle.std.specs.Prelude.{◌≡◌, ◌<◌, ◌^◌, IfOk, length, map};
ghost use Rattle.place_check.specs.Session.{session_of};
ghost use Rattle.release_policy.specs.Choices.{Chooses};

use crate::chosen::Choice;
use crate::denying::denial;
use crate::policy::ReleasePolicy;
use phrase_tree::NoMemory;
use place_check::Checked;
use std::alloc::Global;

/// The first of some sessions of which a policy denies nothing, and the first denial of each session
/// before it; of every session if there is no such session. An error is want of memory. It takes the
/// time of `denial` for each of these sessions, and looks at none behind the chosen one.
pub fn choose(
    alloc: Global,
    policy: &ReleasePolicy,
    sessions: &[Checked],
) -> Result<Choice, NoMemory>
    requires { length sessions.now < 2 ^ 32 }
    ensures { IfOk result (Chooses policy.now (map session_of sessions.now)) }
{
    let mut denials = Vec::new(alloc);
    let mut index = 0;
    for checked in sessions {
        let Some(found) = denial(alloc, policy, checked)? else {
            return Ok(Choice {
                denials,
                chosen: Some(index),
            });
        };
        denials.push(found)?;
        index += 1;
    }
    Ok(Choice {
        denials,
        chosen: None,
    })
}
