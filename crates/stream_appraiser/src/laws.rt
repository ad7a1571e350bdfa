//! Laws of the appraisal of heads, which the functions of this module carry. They do nothing.

ghost use Rattle.std.specs.Prelude.{◌≡◌, ◌↔◌, ℕ, List, None, IsTrue, length};
ghost use Rattle.phrase_tree.specs.Term.{Term};
ghost use Rattle.evidence_types.specs.Bytes.{FitsBundle};
ghost use Rattle.evidence_types.specs.Evidence.{Evidence};
ghost use Rattle.evidence_types.specs.Heads.{heads};
ghost use Rattle.evidence_types.specs.Marked.{FitsMarkedBundle, measurements};
ghost use Rattle.evidence_types.specs.Measure.{IsLight};
ghost use Rattle.evidence_types.specs.Shape.{Fits, Form, shape_at};
ghost use Rattle.place_check.specs.declared.entry.PlaceEntry.{PlaceEntry};
ghost use Rattle.reference_book.specs.Leaves.{leaves};
ghost use Rattle.appraiser.specs.Appraised.{HasReferences};
ghost use Rattle.appraiser.specs.Expected.{Basis};
ghost use Rattle.appraiser.specs.Laws.{HaveOneEach};
ghost use Rattle.appraiser.specs.Fit.{misfit_from, nodes};
ghost use Rattle.appraiser.specs.Verdicts.{all_good, verdicts};
ghost use Rattle.stream_appraiser.specs.Standing.{opening, run};
ghost use Rattle.stream_appraiser.specs.Stream.{IsAccepted, IsFound};

/// The heads of a value, with or without marks, that come one after the other come to the first node that does
/// not fit, and if the value fits, to its verdicts.
pub fn heads_law()
    ensures misfit { (places : List PlaceEntry) (basis : Basis) (shape : Form) (value : Evidence) (marks : List ℕ) →
        (run places basis (opening shape) (heads value marks)).misfit ≡ misfit_from places 0 (heads value marks) (nodes shape) }
    ensures verdicts { (places : List PlaceEntry) (basis : Basis) (shape : Form) (value : Evidence) (marks : List ℕ) →
        misfit_from places 0 (heads value marks) (nodes shape) ≡ None →
        (run places basis (opening shape) (heads value marks)).found ≡ verdicts basis value shape }
{}

/// A value that fits a bundle of version 1, and the shape of a phrase that is nowhere oversize, fits one of version
/// 2 with one mark for each of its measurements.
pub fn upgrade_law()
    ensures { (phrase : Term) (root : List ℕ) (value : Evidence) (marks : List ℕ) →
        IsLight phrase → Fits value (shape_at phrase root) → FitsBundle value → length marks ≡ measurements value →
        FitsMarkedBundle value marks }
{}

/// Bytes are a bundle that is found to fit and has good verdicts alone exactly if they are a bundle, without marks
/// or with those of the shape, of the value that is expected on answers of which each is one of the references of
/// its measurement. This holds if each measurement of the shape has a reference, none under a hash has several, and
/// leaves of one event are one measurement, as in the shape of every phrase.
pub fn acceptance_law()
    ensures { (places : List PlaceEntry) (basis : Basis) (bytes : List ℕ) (shape : Form) →
        HasReferences basis.references shape → HaveOneEach (leaves shape) →
        IsAccepted places basis bytes shape ↔ ((found : IsFound places bytes shape None) × IsTrue (all_good (verdicts basis found.value shape))) }
{}
