ghost use Rattle.std.specs.Prelude.{◌≤◌, ℕ, List};
ghost use Rattle.phrase_tree.specs.Term.{Term, term};
ghost use Rattle.evidence_types.specs.declared.measure.Measure.{Measure};
ghost use Rattle.evidence_types.specs.Amount.{amount};
ghost use Rattle.evidence_types.specs.Bytes.{FitsBundle};
ghost use Rattle.evidence_types.specs.Evidence.{Evidence};
ghost use Rattle.evidence_types.specs.Measure.{count_after, StaysWithin};
ghost use Rattle.evidence_types.specs.Shape.{Fits, shape_at};
ghost use Rattle.session_model.specs.Value.{Makings, session_value, value_of};
ghost use Rattle.session_model.specs.Short.{HasShortAnswers};

use phrase_tree::{Phrase, Place};

/// A law: the value of a session's phrase fits the phrase's shape at its root, whatever the nonce, the
/// answers and the keys are. It does nothing.
pub fn value_fits_shape(_phrase: &Phrase, _root: Place)
    ensures { (from : Makings) → Fits (session_value (term _phrase.now) _root from) (shape_at (term _phrase.now) _root) }
{}

/// A law: at any place, from any number on and on any evidence before it, the value of a phrase whose
/// answers have at most 1,024 bytes comes to no more than is counted over the phrase, by its bytes and
/// by its nesting; and it can be written as a bundle if the phrase stays within both limits on what
/// that evidence comes to. It does nothing.
#[tactic(auto, using(crate::proofs::AmountLemmas::amounts))]
pub fn value_is_within()
    ensures amount { (m : Measure) (phrase : Term) (place : List ℕ) (i : ℕ) (before : Evidence) (from : Makings) →
        HasShortAnswers phrase i from.answers →
        amount m (value_of phrase place i before from) ≤ count_after m phrase (amount m before) }
    ensures bundle { (phrase : Term) (place : List ℕ) (i : ℕ) (before : Evidence) (from : Makings) →
        HasShortAnswers phrase i from.answers → ((m : Measure) → StaysWithin m phrase (amount m before)) →
        FitsBundle (value_of phrase place i before from) }
{}
