ghost use Rattle.std.specs.Prelude.{◌≡◌, ℕ, List, Some, Result, slice_get};
ghost use Rattle.bench_trait.specs.declared.ask.Ask.{Ask as Question};
ghost use Rattle.bench_trait.specs.declared.bench.MeasureError.{MeasureError};
ghost use Rattle.bench_trait.specs.Bench.{MatchMeasured};
ghost use Rattle.atomic_table.specs.Seated.{TableId};
ghost use Rattle.session_core.specs.declared.opened.Opened.{Opened};
ghost use Rattle.session_core.specs.Session.{Seen};
ghost use Rattle.session_model.specs.declared.record.Record.{Record};
ghost use Rattle.session_desk.specs.declared.hand.Hand.{Hand};
ghost use Rattle.session_desk.specs.declared.hand.Turned.{Turned};
ghost use Rattle.session_desk.specs.declared.hand.Recorded.{Recorded};
ghost use Rattle.session_desk.specs.declared.hand.DeskError.{DeskError};
ghost use Rattle.session_desk.specs.Views.{Known, openings_of};
ghost use Rattle.session_desk.specs.Opening.{AreOpened, AreOpenedOver, IsFit};
ghost use Rattle.session_desk.specs.Taking.{ChangesAt};
ghost use Rattle.session_desk.specs.Answers.{AreOver, IsQuestion, IsMeasured, IsHeld, IsForAnother, IsLegalSeen, Turns, Records, Outcomes};

use bench_trait::{ArtefactBook, Bench};
use session_runs::flight_law;

/// A law: where all sessions were opened with a bench and artefacts, what the bench gives over these
/// artefacts for the question of a hand's ask may be recorded by the hand.
pub fn measured_law<B: Bench>(bench: &B, artefacts: &ArtefactBook)
    ensures { (pass : Known (Opened B)) (hand : Hand) (ask : Question) (measured : Result (List ℕ) MeasureError) →
        AreOver bench.now artefacts.now (openings_of pass.views) →
        IsQuestion pass hand ask →
        MatchMeasured measured (B.gives bench.now artefacts.now ask) (B.fails bench.now artefacts.now ask) (B.starves bench.now artefacts.now ask) →
        IsMeasured
        (λ opening question answer. B.gives opening.bench.now opening.artefacts.now question answer)
        (λ opening question fault. B.fails opening.bench.now opening.artefacts.now question fault)
        (λ opening question. B.starves opening.bench.now opening.artefacts.now question)
        pass
        hand
        measured }
{}

/// A law: where all sessions of a desk were opened with a bench and artefacts, each of its passes is one of
/// that desk, over these.
pub fn opened_law<B: Bench>(bench: &B, artefacts: &ArtefactBook)
    ensures { (sessions : List (Seen (Opened B))) (many : ℕ) (desk : List TableId) (passes : List (Known (Opened B))) (number : ℕ) (pass : Known (Opened B)) →
        AreOpened sessions many desk passes →
        AreOpenedOver bench.now artefacts.now sessions →
        slice_get passes number ≡ Some pass →
        IsFit bench.now artefacts.now desk pass }
{}

/// A law: a hand stays good while its pass goes on, at the hand's own session and at others: over its turns,
/// over the outcomes that it asks for, and over the results that it records by other hands. And as long as
/// what the sessions were opened with stays, as it does in each of these calls, the question of a hand's ask
/// stays its own, and what was measured for it may still be recorded.
pub fn stays_law<B: Bench>()
    ensures turn { (session : ℕ) (answer : Turned) (hand : Hand) (before after : Known (Opened B)) →
        ChangesAt
        session
        (Turns
        (IsLegalSeen
        (λ opening question answer. B.gives opening.bench.now opening.artefacts.now question answer)
        (λ opening question fault. B.fails opening.bench.now opening.artefacts.now question fault)
        (λ opening question. B.starves opening.bench.now opening.artefacts.now question))
        session
        before.number
        answer)
        before
        after →
        IsHeld before hand →
        IsHeld after hand }
    ensures record { (spent : Hand) (measured : Result (List ℕ) MeasureError) (answer : Recorded) (hand : Hand) (before after : Known (Opened B)) →
        ChangesAt
        spent.session
        (Records
        (IsLegalSeen
        (λ opening question answer. B.gives opening.bench.now opening.artefacts.now question answer)
        (λ opening question fault. B.fails opening.bench.now opening.artefacts.now question fault)
        (λ opening question. B.starves opening.bench.now opening.artefacts.now question))
        before.number
        spent
        measured
        answer)
        before
        after →
        IsForAnother spent hand →
        IsHeld before hand →
        IsHeld after hand }
    ensures outcome { (session : ℕ) (answer : Result Record DeskError) (hand : Hand) (before after : Known (Opened B)) →
        ChangesAt
        session
        (Outcomes
        (IsLegalSeen
        (λ opening question answer. B.gives opening.bench.now opening.artefacts.now question answer)
        (λ opening question fault. B.fails opening.bench.now opening.artefacts.now question fault)
        (λ opening question. B.starves opening.bench.now opening.artefacts.now question))
        before.number
        answer)
        before
        after →
        IsHeld before hand →
        IsHeld after hand }
    ensures question { (hand : Hand) (ask : Question) (before after : Known (Opened B)) →
        openings_of after.views ≡ openings_of before.views →
        IsQuestion before hand ask →
        IsQuestion after hand ask }
    ensures measured { (hand : Hand) (measured : Result (List ℕ) MeasureError) (before after : Known (Opened B)) →
        openings_of after.views ≡ openings_of before.views →
        IsMeasured
        (λ opening question answer. B.gives opening.bench.now opening.artefacts.now question answer)
        (λ opening question fault. B.fails opening.bench.now opening.artefacts.now question fault)
        (λ opening question. B.starves opening.bench.now opening.artefacts.now question)
        before
        hand
        measured →
        IsMeasured
        (λ opening question answer. B.gives opening.bench.now opening.artefacts.now question answer)
        (λ opening question fault. B.fails opening.bench.now opening.artefacts.now question fault)
        (λ opening question. B.starves opening.bench.now opening.artefacts.now question)
        after
        hand
        measured }
{
    flight_law();
}
