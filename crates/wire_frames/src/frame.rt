ghost use Rattle.std.specs.Prelude.{◌≡◌, ◌≤◌, length, IfOk};
ghost use Rattle.wire_frames.specs.Frames.{frame_bytes, kind_byte};

use byte_ports::Bytes;
use phrase_tree::{NoMemory, push_bytes};
use std::alloc::Global;

/// The least number that the length field of a frame may have: one byte of kind, 16 of nonce and four of name.
pub const LENGTH_LEAST: u32 = 21;

/// The greatest number that the length field of a frame may have.
pub const LENGTH_MOST: u32 = 262_174;

/// The most bytes that the bundle of a frame may have.
pub const BUNDLE_MOST: usize = 262_153;

/// A request or a reply of a session.
#[derive(Debug, Drop)]
pub struct Frame {
    /// A reply; else it is a request.
    pub reply: bool,
    /// The nonce of the session.
    pub nonce: [u8; 16],
    /// The number of the request, or of the request that is replied to.
    pub name: u32,
    /// The evidence that is sent, as a bundle.
    pub bundle: Bytes,
}

impl Frame {
    /// The byte of its kind.
    fn kind(&self) -> u8
        ensures { result ≡ kind_byte self.now.reply }
    {
        if self.reply { 2 } else { 1 }
    }
}

/// The bytes of a frame, of which the bundle has at most 262,153: the length of what follows it in four
/// bytes, the byte 1 for a request or 2 for a reply, the nonce, the name in four bytes, and the bundle. Numbers
/// begin with their highest byte. They are made in one allocation of their size. The format is this
/// project's own.
pub fn write_frame(alloc: Global, frame: &Frame) -> Result<Bytes, NoMemory>
    requires { length frame.now.bundle ≤ BUNDLE_MOST }
    ensures { IfOk result (λ bytes. bytes ≡ frame_bytes frame.now) }
{
    let bundle = frame.bundle.items();
    let count = LENGTH_LEAST + bundle.len() as u32;
    let mut out = Vec::with_capacity(alloc, 4 + count as usize)?;
    push_bytes(&mut out, &count.to_be_bytes())?;
    push_bytes(&mut out, &[frame.kind()])?;
    push_bytes(&mut out, &frame.nonce)?;
    push_bytes(&mut out, &frame.name.to_be_bytes())?;
    push_bytes(&mut out, bundle)?;
    Ok(Bytes::of(out))
}
