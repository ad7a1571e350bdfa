//! Laws of appraisal, which the functions of this module carry. They do nothing.

ghost use Rattle.std.specs.Prelude.{◌≡◌, ◌≤◌, ◌↔◌, ℕ, List, Option, None, Some, IsTrue, length};
ghost use Rattle.phrase_tree.specs.Events.{events_of};
ghost use Rattle.phrase_tree.specs.Term.{Term};
ghost use Rattle.evidence_types.specs.Evidence.{Evidence};
ghost use Rattle.evidence_types.specs.Marked.{measurements};
ghost use Rattle.evidence_types.specs.Measure.{IsLight};
ghost use Rattle.evidence_types.specs.Shape.{Fits, Form, shape_at};
ghost use Rattle.place_check.specs.declared.entry.PlaceEntry.{PlaceEntry};
ghost use Rattle.place_check.specs.Places.{keys_of};
ghost use Rattle.place_check.specs.Session.{HaveKeys};
ghost use Rattle.reference_book.specs.declared.reference.Reference.{Reference};
ghost use Rattle.reference_book.specs.Leaves.{has_several, hashed_leaves, leaves, least_event};
ghost use Rattle.session_model.specs.Value.{Makings, session_value};
ghost use Rattle.appraiser.specs.Appraised.{CanAppraise, HasMarks, HasReferences, basis_of};
ghost use Rattle.appraiser.specs.Expected.{Basis, expected};
ghost use Rattle.appraiser.specs.Fit.{AreMarksOf, CanMark, FitsWith, misfit};
ghost use Rattle.appraiser.specs.Laws.{AreExpected, HaveOneEach, answer_of, basis_with, chosen};
ghost use Rattle.appraiser.specs.Verdicts.{all_good, verdicts};

/// No node of a value is a misfit exactly if the value fits the shape, and its marks, if there are any, are the
/// indices of the places of the shape's measurements. With these marks a value that fits is no misfit either, so
/// its bundles of both versions have the same verdicts, which don't depend on marks.
pub fn fits_law()
    ensures fits { (places : List PlaceEntry) (value : Evidence) (marks : Option (List ℕ)) (shape : Form) →
        HasMarks value marks → (misfit places value marks shape ≡ None) ↔ FitsWith places value marks shape }
    ensures marked { (places : List PlaceEntry) (value : Evidence) (marks : List ℕ) (shape : Form) →
        Fits value shape → AreMarksOf places shape marks → (length marks ≡ measurements value) × (misfit places value (Some marks) shape ≡ None) }
{}

/// A value that fits a shape, of which each measurement has a reference and none under a hash has several, is
/// accepted exactly if each answer that it chose is one of the references of its measurement, and it is
/// what is expected on these answers. This holds if leaves of one event are one measurement, as in the shape of
/// every phrase. And what is expected of a shape on any answers that are references is accepted.
pub fn accepted_law()
    ensures chosen { (basis : Basis) (value : Evidence) (shape : Form) →
        Fits value shape → HasReferences basis.references shape → HaveOneEach (leaves shape) →
        IsTrue (all_good (verdicts basis value shape)) ↔ (AreExpected basis.references (chosen basis.references value shape) (leaves shape) × (value ≡ expected basis (answer_of (chosen basis.references value shape)) shape)) }
    ensures expected { (basis : Basis) (answers : List (ℕ × List ℕ)) (shape : Form) →
        least_event (has_several basis.references) (hashed_leaves shape) ≡ None →
        AreExpected basis.references answers (leaves shape) →
        IsTrue (all_good (verdicts basis (expected basis (answer_of answers) shape) shape)) }
{}

/// The value of a session's phrase on answers that are references of the shape's measurements is accepted, if
/// none under a hash has several references.
pub fn session_law()
    ensures { (phrase : Term) (root : List ℕ) (from : Makings) (references : List Reference) →
        least_event (has_several references) (hashed_leaves (shape_at phrase root)) ≡ None →
        AreExpected references from.answers (leaves (shape_at phrase root)) →
        IsTrue (all_good (verdicts (basis_with from references) (session_value phrase root from) (shape_at phrase root))) }
{}

/// The shape of every phrase has leaves that are one measurement for each event. If the phrase is nowhere
/// oversize, its events happen at places that have keys, and the shape's measurements have references, then
/// values can be appraised by it; and its measurements have marks if there are at most 256 places.
pub fn shape_law()
    ensures one { (phrase : Term) (root : List ℕ) → HaveOneEach (leaves (shape_at phrase root)) }
    ensures appraised { (phrase : Term) (root : List ℕ) (places : List PlaceEntry) (references : List Reference) (nonce : List ℕ) →
        IsLight phrase → HaveKeys (keys_of places) (events_of phrase root 0) → HasReferences references (shape_at phrase root) →
        CanAppraise (basis_of places references nonce) (shape_at phrase root) }
    ensures marked { (phrase : Term) (root : List ℕ) (places : List PlaceEntry) →
        length places ≤ 256 → HaveKeys (keys_of places) (events_of phrase root 0) → CanMark places (shape_at phrase root) }
{}
