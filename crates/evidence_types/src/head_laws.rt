//! Laws of the bytes of values, which the functions of this module carry. They do nothing.

ghost use Rattle.std.specs.Prelude.{◌≡◌, ℕ, List, [], take};
ghost use Rattle.evidence_types.specs.Bytes.{encoding};
ghost use Rattle.evidence_types.specs.Evidence.{Evidence};
ghost use Rattle.evidence_types.specs.Heads.{heads, joined, marks_of};
ghost use Rattle.evidence_types.specs.Marked.{marked_encoding, measurements};

/// The bytes of a value are those of its heads, one after the other, without marks and with them. The marks
/// stand in the order of the heads, one for each measurement.
pub fn heads_make_the_bytes()
    ensures plain { (value : Evidence) → joined (heads value []) ≡ encoding value }
    ensures marked { (value : Evidence) (marks : List ℕ) → joined (heads value marks) ≡ marked_encoding value marks }
    ensures unmarked { (value : Evidence) → marked_encoding value [] ≡ encoding value }
    ensures in_order { (value : Evidence) (marks : List ℕ) → marks_of (heads value marks) ≡ take (measurements value) marks }
{}
