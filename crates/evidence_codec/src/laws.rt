//! Laws of the format, which the functions of this module carry. They do nothing.

ghost use Rattle.std.specs.Prelude.{◌≡◌, ◌<◌, ◌↔◌, ◌++◌, ℕ, List, Bool, ◌+◌, length, take, None, Some, slice_index};
ghost use Rattle.evidence_types.specs.Bundle.{IsBundle, IsEitherBundle};
ghost use Rattle.evidence_types.specs.Bytes.{encoding, bundle};
ghost use Rattle.evidence_types.specs.Evidence.{Evidence};
ghost use Rattle.evidence_types.specs.Marked.{marked_encoding, measurements};
ghost use Rattle.evidence_types.specs.WellFormed.{IsWellFormed};
ghost use Rattle.evidence_codec.specs.Reading.{fault, fault_of, first_fault, first_fault_of_either, read_bundle};
ghost use Rattle.evidence_codec.specs.Scanning.{finished, scan, start, Scan};

use crate::fault::BadKind;

/// No spelling of a value begins another: whatever follows, the value at the front is the only one.
pub fn one_spelling()
    ensures { (left right : Evidence) (x y : List ℕ) → IsWellFormed left → IsWellFormed right → encoding left ++ x ≡ encoding right ++ y → (left ≡ right) × (x ≡ y) }
{}

/// Nor does one with marks.
pub fn one_marked_spelling()
    ensures { (left right : Evidence) (first second x y : List ℕ) → IsWellFormed left → IsWellFormed right →
        length first ≡ measurements left → length second ≡ measurements right →
        marked_encoding left first ++ x ≡ marked_encoding right second ++ y → (left ≡ right) × (first ≡ second) × (x ≡ y) }
{}

/// A bundle has one value.
pub fn one_value()
    ensures { (left right : Evidence) → IsWellFormed left → IsWellFormed right → bundle left ≡ bundle right → left ≡ right }
{}

/// Bytes have a fault exactly when they are not a bundle: of version 1, and of either version.
pub fn fault_or_bundle()
    ensures plain { (bytes : List ℕ) → ((index : ℕ) → slice_index bytes index < 256) → (first_fault bytes ≡ None) ↔ IsBundle bytes }
    ensures either { (bytes : List ℕ) → ((index : ℕ) → slice_index bytes index < 256) → (first_fault_of_either bytes ≡ None) ↔ IsEitherBundle bytes }
{}

/// Bytes that are scanned one after the other come to what reading them as a whole gives. Scanning
/// joined bytes is scanning the parts one after the other, so every cutting gives the same.
pub fn scan_law()
    ensures whole { (either : Bool) (bytes : List ℕ) → read_bundle either bytes ≡ finished (scan either start bytes) }
    ensures parts { (either : Bool) (state : Scan) (left right : List ℕ) →
        scan either state (left ++ right) ≡ ((scan either state left).0 ++ (scan either (scan either state left).1 right).0, (scan either (scan either state left).1 right).1) }
{}

/// A fault other than that the bytes end is the fault of all bytes that begin as these do up to it: no byte
/// counts that stands four or more behind its place.
pub fn fault_of_every_extension()
    ensures { (either : Bool) (bytes more : List ℕ) (at : ℕ) (kind : BadKind) → ¬ (kind ≡ BadKind.Short) →
        fault_of (read_bundle either bytes) ≡ Some (fault at kind) → fault_of (read_bundle either (take (at + 4) bytes ++ more)) ≡ Some (fault at kind) }
{}
