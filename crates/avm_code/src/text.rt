ghost use Rattle.std.specs.Prelude.{◌≡◌, ◌++◌, OnOk};
ghost use Rattle.avm_code.specs.Text.{sign_text, signs_text};

use phrase_tree::{NoMemory, Split};

fn push_sign(text: &mut Vec<u8>, all: bool) -> Result<(), NoMemory>
    ensures { OnOk result (text.new.items ≡ text.old.items ++ sign_text all) }
{
    let sign = if all { b'+' } else { b'-' };
    text.push(sign)?;
    Ok(())
}

/// Appends the two signs of a branch, `+` for an arm that gets all of the evidence and `-` for one
/// that gets none, the left arm's first. An error is want of memory.
pub fn push_signs(text: &mut Vec<u8>, split: Split) -> Result<(), NoMemory>
    ensures { OnOk result (text.new.items ≡ text.old.items ++ signs_text split) }
{
    push_sign(text, split.left)?;
    push_sign(text, split.right)
}
