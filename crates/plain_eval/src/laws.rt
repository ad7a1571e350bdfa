//! Laws of evaluation, which the functions of this module carry. They do nothing.

ghost use Rattle.std.specs.Prelude.{◌≡◌, ℕ, List, length};
ghost use Rattle.phrase_tree.specs.Term.{Term};
ghost use Rattle.phrase_tree.specs.Events.{events_of};
ghost use Rattle.phrase_tree.specs.Numbering.{IsSized};
ghost use Rattle.evidence_types.specs.Bytes.{FitsBundle};
ghost use Rattle.evidence_types.specs.Measure.{IsLight};
ghost use Rattle.evidence_types.specs.WellFormed.{IsWellFormed};
ghost use Rattle.session_model.specs.Value.{Makings, session_value};
ghost use Rattle.place_check.specs.Session.{HaveKeys};
ghost use Rattle.plain_eval.specs.Keyed.{HasKeys};
ghost use Rattle.session_model.specs.Short.{HasShortAnswers};

/// If each event of a phrase happens at a place that has a key, then each seal has its key; so `eval`
/// may be called for every checked session, with the keys of its places.
pub fn events_have_the_keys_of_seals()
    ensures { (phrase : Term) (place : List ℕ) (first : ℕ) (keys : List (List ℕ × List ℕ)) →
        HaveKeys keys (events_of phrase place first) → HasKeys phrase place keys }
{}

/// The value of a phrase whose evidence is nowhere over a limit can be written as a bundle if the nonce
/// has 16 bytes and no answer has more than 1,024.
pub fn value_fits_bundle()
    ensures { (phrase : Term) (root : List ℕ) (from : Makings) →
        IsLight phrase → length from.nonce ≡ 16 → HasShortAnswers phrase 0 from.answers →
        FitsBundle (session_value phrase root from) }
{}

/// The value of a sized phrase is well formed if the nonce has 16 bytes and no answer has more than 1,024; so what
/// is written of it is read again.
pub fn value_is_well_formed()
    ensures { (phrase : Term) (root : List ℕ) (from : Makings) →
        IsSized phrase → length from.nonce ≡ 16 → HasShortAnswers phrase 0 from.answers →
        IsWellFormed (session_value phrase root from) }
{}
