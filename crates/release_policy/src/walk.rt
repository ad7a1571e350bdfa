ghost use Rattle.std.specs.Prelude.{◌≡◌, ◌<◌, ◌+◌, ◌^◌, None, IfOk, OnOk};
ghost use Rattle.phrase_tree.specs.Term.{term, leaf, usm, at, seq};
ghost use Rattle.phrase_tree.specs.Numbering.{event_count};
ghost use Rattle.release_policy.specs.Walked.{first_denied, held_from, leaf_held, told_from, StopsAt};

use crate::denied::Denial;
use crate::evidence::Evidence;
use crate::judge::Judge;
use phrase_tree::{Asp, Phrase, Place, Split};
use std::mem;

/// Why a walk over a phrase ended early.
#[derive(Clone, Copy)]
pub(crate) enum Stop {
    Denied(Denial),
    NoMemory,
}

/// One more measurement on what is held, and the number that follows its event.
fn measure(asp: &Asp, place: &Place, number: u32, evidence: &mut Evidence) -> Result<u32, Stop>
    requires { number + 1 < 2 ^ 32 }
    ensures memory { StopsAt None result }
    ensures next { IfOk result (λ next. next ≡ number + 1) }
    ensures held { OnOk result (evidence.new ≡ leaf_held (usm asp.now) place.now number evidence.old) }
{
    match evidence.measure(number, *place, asp.name) {
        Ok(()) => Ok(number + 1),
        Err(_) => Err(Stop::NoMemory),
    }
}

impl Judge<'_> {
    /// Walks a phrase at a place once from a number on, with the measurements that its evidence holds;
    /// it stops at the first denial, and gives the number that follows its events.
    #[cycle(walking)]
    pub fn walk(
        &mut self,
        phrase: &Phrase,
        place: &Place,
        number: u32,
        evidence: &mut Evidence,
    ) -> Result<u32, Stop>
        requires { number + event_count (term phrase.now) < 2 ^ 32 }
        ensures found { StopsAt (first_denied self.old (told_from (term phrase.now) place.now number evidence.old)) result }
        ensures next { IfOk result (λ next. next ≡ number + event_count (term phrase.now)) }
        ensures held { OnOk result (evidence.new ≡ held_from (term phrase.now) place.now number evidence.old) }
        ensures same { self.new ≡ self.old }
    {
        match phrase {
            Phrase::Cpy => Ok(number + 1),
            Phrase::Sig => {
                evidence.seal();
                Ok(number + 1)
            }
            Phrase::Hsh => {
                evidence.hash();
                Ok(number + 1)
            }
            Phrase::Nul => {
                evidence.clear();
                Ok(number + 1)
            }
            Phrase::Usm(asp) => measure(asp, place, number, evidence),
            Phrase::Kim(_, asp) => measure(asp, place, number, evidence),
            Phrase::At(asked, body) => self.ask(asked, body, place, number, evidence),
            Phrase::Then(left, right) => match self.chained(left, place, number, evidence) {
                Ok(next) => self.walk(right, place, next, evidence),
                Err(stop) => Err(stop),
            },
            Phrase::Seq(split, left, right) => {
                self.branch(*split, left, right, place, number, evidence)
            }
            Phrase::Par(split, left, right) => {
                self.branch(*split, left, right, place, number, evidence)
            }
        }
    }

    /// The same, in a small frame of its own: a chain nests as deep as it is long.
    #[cycle(walking)]
    fn chained(
        &mut self,
        phrase: &Phrase,
        place: &Place,
        number: u32,
        evidence: &mut Evidence,
    ) -> Result<u32, Stop>
        requires { number + event_count (term phrase.now) < 2 ^ 32 }
        ensures found { StopsAt (first_denied self.old (told_from (term phrase.now) place.now number evidence.old)) result }
        ensures next { IfOk result (λ next. next ≡ number + event_count (term phrase.now)) }
        ensures held { OnOk result (evidence.new ≡ held_from (term phrase.now) place.now number evidence.old) }
        ensures same { self.new ≡ self.old }
    {
        match phrase {
            Phrase::Then(left, right) => match self.chained(left, place, number, evidence) {
                Ok(next) => self.walk(right, place, next, evidence),
                Err(stop) => Err(stop),
            },
            _ => self.walk(phrase, place, number, evidence),
        }
    }

    /// A request: all goes to the place that is asked, which runs the phrase, and its result to the place
    /// that asked.
    #[cycle(walking)]
    fn ask(
        &mut self,
        asked: &Place,
        body: &Phrase,
        place: &Place,
        number: u32,
        evidence: &mut Evidence,
    ) -> Result<u32, Stop>
        requires { number + (2 + event_count (term body.now)) < 2 ^ 32 }
        ensures found { StopsAt (first_denied self.old (told_from (at asked.now (term body.now)) place.now number evidence.old)) result }
        ensures next { IfOk result (λ next. next ≡ number + (2 + event_count (term body.now))) }
        ensures held { OnOk result (evidence.new ≡ held_from (term body.now) asked.now (number + 1) evidence.old) }
        ensures same { self.new ≡ self.old }
    {
        match self.disclose(number, asked, evidence) {
            Ok(()) => {}
            Err(stop) => return Err(stop),
        }
        let last = match self.walk(body, asked, number + 1, evidence) {
            Ok(last) => last,
            Err(stop) => return Err(stop),
        };
        match self.disclose(last, place, evidence) {
            Ok(()) => Ok(last + 1),
            Err(stop) => Err(stop),
        }
    }

    /// A branch: each arm on its part of the evidence, and what both hold.
    #[cycle(walking)]
    fn branch(
        &mut self,
        split: Split,
        left: &Phrase,
        right: &Phrase,
        place: &Place,
        number: u32,
        evidence: &mut Evidence,
    ) -> Result<u32, Stop>
        requires { number + (2 + event_count (term left.now) + event_count (term right.now)) < 2 ^ 32 }
        ensures found { StopsAt (first_denied self.old (told_from (seq split (term left.now) (term right.now)) place.now number evidence.old)) result }
        ensures next { IfOk result (λ next. next ≡ number + (2 + event_count (term left.now) + event_count (term right.now))) }
        ensures held { OnOk result (evidence.new ≡ held_from (seq split (term left.now) (term right.now)) place.now number evidence.old) }
        ensures same { self.new ≡ self.old }
    {
        let Ok(for_right) = evidence.part(self.alloc(), split) else {
            return Err(Stop::NoMemory);
        };
        let middle = match self.walk(left, place, number + 1, evidence) {
            Ok(middle) => middle,
            Err(stop) => return Err(stop),
        };
        let of_left = mem::replace(evidence, for_right);
        let last = match self.walk(right, place, middle, evidence) {
            Ok(last) => last,
            Err(stop) => return Err(stop),
        };
        match evidence.follow(of_left) {
            Ok(()) => Ok(last + 1),
            Err(_) => Err(Stop::NoMemory),
        }
    }
}
