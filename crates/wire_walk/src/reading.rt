ghost use Rattle.std.specs.Prelude.{◌≡◌, ◌++◌, [], IfOk, OnOk};
ghost use Rattle.wire_frames.specs.Frames.{frame_bytes, IsFrame};
ghost use Rattle.wire_frames.specs.declared.frame.Frame.{Frame as Meant};

use phrase_tree::NoMemory;
use wire_frames::{Frame, FrameReader, NextFrame, one_frame};

/// So many bytes are fed at once.
const PIECE: usize = 7;

/// Feeds bytes in pieces.
fn feed(reader: &mut FrameReader, bytes: &[u8]) -> Result<(), NoMemory>
    ensures { OnOk result (reader.new.rest ≡ reader.old.rest ++ bytes.now) }
{
    let whole = bytes.len() / PIECE;
    for part in 0..whole {
        let at = part * PIECE;
        reader.feed(&bytes[at..at + PIECE])?;
    }
    reader.feed(&bytes[whole * PIECE..])
}

/// The frame of these bytes, which go through a reader in pieces.
pub(crate) fn read_through(reader: &mut FrameReader, bytes: &[u8]) -> Result<Frame, NoMemory>
    requires { reader.old.rest ≡ [] }
    ensures frame { IfOk result (λ frame. (meant : Meant) → IsFrame meant → bytes.now ≡ frame_bytes meant → frame ≡ meant) }
    ensures rest { IfOk result (λ frame. (meant : Meant) → IsFrame meant → bytes.now ≡ frame_bytes meant → reader.new.rest ≡ []) }
{
    one_frame();
    feed(reader, bytes)?;
    match reader.next() {
        Ok(NextFrame::Whole(frame)) => Ok(frame),
        Ok(NextFrame::More) => Err(NoMemory),
        Err(_) => Err(NoMemory),
    }
}
