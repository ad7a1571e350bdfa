ghost use Rattle.std.specs.Prelude.{◌≡◌, length, IfOk};
ghost use Rattle.wire_frames.specs.Frames.{frame_bytes, IsFrame};
ghost use Rattle.wire_frames.specs.Front.{IsWhole};

use crate::frame::Frame;
use byte_ports::Bytes;
use phrase_tree::{NoMemory, push_bytes};
use std::alloc::Global;

/// A list of its own with these bytes, made in one allocation of its size.
fn copied(alloc: Global, bytes: &[u8]) -> Result<Bytes, NoMemory>
    ensures { IfOk result (λ copy. copy ≡ bytes.now) }
{
    let mut out = Vec::with_capacity(alloc, bytes.len())?;
    push_bytes(&mut out, bytes)?;
    Ok(Bytes::of(out))
}

/// The frame that these bytes are.
pub fn frame_in(alloc: Global, bytes: &[u8]) -> Result<Frame, NoMemory>
    requires { IsWhole bytes.now (length bytes.now) }
    ensures { IfOk result (λ frame. IsFrame frame × (frame_bytes frame ≡ bytes.now)) }
{
    let Some((_, rest)) = bytes.split_first_chunk::<5>() else {
        unreachable!()
    };
    let Some((nonce, rest)) = rest.split_first_chunk::<16>() else {
        unreachable!()
    };
    let Some((name, bundle)) = rest.split_first_chunk::<4>() else {
        unreachable!()
    };
    Ok(Frame {
        reply: bytes[4] == 2,
        nonce: *nonce,
        name: u32::from_be_bytes(*name),
        bundle: copied(alloc, bundle)?,
    })
}
