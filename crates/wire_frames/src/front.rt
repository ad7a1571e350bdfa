ghost use Rattle.std.specs.Prelude.{◌↔◌, IsTrue, length};
ghost use Rattle.wire_frames.specs.Front.{IsFront, IsOtherKind};

use crate::frame::{LENGTH_LEAST, LENGTH_MOST};

/// What stands at the front of bytes.
#[derive(Clone, Copy, Debug)]
pub enum Front {
    /// Fewer bytes than a frame has.
    Part,
    /// A length that no frame has.
    BadLength,
    /// A length, and behind it the byte of no kind.
    BadKind,
    /// A frame of so many bytes.
    Whole(usize),
}

/// Whether the first of these bytes is there and is that of no kind.
fn is_other_kind(behind: &[u8]) -> bool
    ensures { IsTrue result ↔ IsOtherKind behind.now }
{
    match behind {
        [] => false,
        [kind, ..] => *kind != 1 && *kind != 2,
    }
}

/// What stands at the front of these bytes. It reads no more than five of them.
pub fn front_of(bytes: &[u8]) -> Front
    ensures { IsFront bytes.now result }
{
    let Some((field, behind)) = bytes.split_first_chunk::<4>() else {
        return Front::Part;
    };
    let count = u32::from_be_bytes(*field);
    if count < LENGTH_LEAST || LENGTH_MOST < count {
        return Front::BadLength;
    }
    if is_other_kind(behind) {
        return Front::BadKind;
    }
    let size = count as usize + 4;
    if bytes.len() < size {
        return Front::Part;
    }
    Front::Whole(size)
}
