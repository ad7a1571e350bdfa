//! Laws of the format, which the functions of this module carry. They do nothing.

ghost use Rattle.std.specs.Prelude.{◌≡◌, ◌++◌, ℕ, List};
ghost use Rattle.wire_frames.specs.declared.frame.Frame.{Frame};
ghost use Rattle.wire_frames.specs.Frames.{frame_bytes, IsFrame};
ghost use Rattle.wire_frames.specs.Reading.{ComesTo};

/// The bytes of no frame begin those of another: whatever follows, the frame at the front is the only one.
pub fn one_frame()
    ensures { (left right : Frame) (x y : List ℕ) → IsFrame left → IsFrame right → frame_bytes left ++ x ≡ frame_bytes right ++ y → (left ≡ right) × (x ≡ y) }
{}

/// Bytes come to one list of frames and one rest. Joined bytes come to the frames of the first, then to those of
/// what they left joined with the second. So the frames and the rest are the same however the bytes are cut.
pub fn pieces_law()
    ensures one { (bytes : List ℕ) (frames others : List Frame) (rest left : List ℕ) →
        ComesTo bytes frames rest → ComesTo bytes others left → (frames ≡ others) × (rest ≡ left) }
    ensures joined { (first second : List ℕ) (frames others : List Frame) (rest left : List ℕ) →
        ComesTo first frames rest → ComesTo (rest ++ second) others left → ComesTo (first ++ second) (frames ++ others) left }
{}
