//! Laws of sessions whose measurements are fixed, which the functions of this module carry. They do
//! nothing.

ghost use Rattle.std.specs.Prelude.{◌≡◌, ◌≢◌, ◌↔◌, ℕ, List, Some, Contains};
ghost use Rattle.bench_trait.specs.Digest.{digest_answer, LacksArtefact};
ghost use Rattle.bench_trait.specs.declared.artefacts.Artefact.{Artefact};
ghost use Rattle.bench_trait.specs.declared.ask.Ask.{Ask};
ghost use Rattle.session_model.specs.Record.{Record, IsRisingRecord};
ghost use Rattle.session_model.specs.Session.{Session, session_questions};
ghost use Rattle.plain_eval.specs.Fixed.{IsFixed, SaysDone, HaveArtefacts};

use bench_trait::{Bench, DigestBench};

/// If a bench has at most one answer or one fault for a question, a session that is run in the order of
/// its numbers has at most one right record: with one list of keys, two right records are equal.
pub fn fixed_bench_makes_one_record<B: Bench>()
    ensures { (bench : B) (artefacts : List Artefact) (session : Session) (keys : List (List ℕ × List ℕ)) (one other : Record) →
        IsFixed (B.gives bench artefacts) (B.fails bench artefacts) →
        IsRisingRecord (B.gives bench artefacts) (B.fails bench artefacts) session keys one →
        IsRisingRecord (B.gives bench artefacts) (B.fails bench artefacts) session keys other →
        one ≡ other }
{}

/// Over one book of artefacts, `DigestBench` has at most one answer or one fault for a question.
pub fn digests_are_fixed()
    ensures { (artefacts : List Artefact) →
        IsFixed (λ ask answer. digest_answer artefacts ask ≡ Some answer) (λ ask fault. LacksArtefact artefacts ask fault) }
{}

/// So over one book of artefacts, a session that is measured by `DigestBench` in the order of its numbers
/// has at most one right record.
pub fn digests_make_one_record()
    ensures { (artefacts : List Artefact) (session : Session) (keys : List (List ℕ × List ℕ)) (one other : Record) →
        IsRisingRecord (λ ask answer. digest_answer artefacts ask ≡ Some answer) (λ ask fault. LacksArtefact artefacts ask fault) session keys one →
        IsRisingRecord (λ ask answer. digest_answer artefacts ask ≡ Some answer) (λ ask fault. LacksArtefact artefacts ask fault) session keys other →
        one ≡ other }
{
    digests_are_fixed();
    fixed_bench_makes_one_record::<DigestBench>();
}

/// A right record of a session that is measured by `DigestBench` says 'done' exactly when the book has
/// each artefact that the session asks for.
pub fn done_where_artefacts_are_there()
    ensures { (artefacts : List Artefact) (session : Session) (keys : List (List ℕ × List ℕ)) (found : Record) →
        IsRisingRecord (λ ask answer. digest_answer artefacts ask ≡ Some answer) (λ ask fault. LacksArtefact artefacts ask fault) session keys found →
        SaysDone found ↔ HaveArtefacts artefacts (session_questions session) }
{}

/// Each question of a session holds its nonce, so two sessions with different nonces have none in
/// common.
pub fn nonces_keep_questions_apart()
    ensures held { (session : Session) (ask : Ask) →
        Contains (session_questions session) ask → ask.nonce ≡ session.nonce }
    ensures apart { (one other : Session) (ask : Ask) → one.nonce ≢ other.nonce →
        Contains (session_questions one) ask → ¬ Contains (session_questions other) ask }
{}
