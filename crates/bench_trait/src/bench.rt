ghost use Rattle.std.specs.Prelude.{ℕ, List};
ghost use Rattle.bench_trait.specs.Bench.{MatchMeasured};
ghost use Rattle.bench_trait.specs.declared.artefacts.Artefact.{Artefact};
ghost use Rattle.bench_trait.specs.declared.ask.Ask.{Ask};
ghost use Rattle.bench_trait.specs.declared.bench.BenchFault.{BenchFault};

use crate::artefacts::ArtefactBook;
use crate::ask::Ask;
use evidence_types::Answer;

/// Why a measurement has no answer.
#[derive(Clone, Copy, Debug, PartialEq, Eq)]
pub enum BenchFault {
    /// What was to be measured isn't there.
    NoArtefact,
    /// The measurer broke, with a code of its own.
    Broken(u16),
}

/// Why a bench gave no answer.
#[derive(Clone, Copy, Debug, PartialEq, Eq)]
pub enum MeasureError {
    Fault(BenchFault),
    NoMemory,
}

/// A measurer.
pub trait Bench {
    /// The answers that it gives to a question over these artefacts.
    ghost gives: { Self → List Artefact → Ask → List ℕ → Type 0 };

    /// The faults with which it fails at a question over these artefacts.
    ghost fails: { Self → List Artefact → Ask → BenchFault → Type 0 };

    /// The questions over these artefacts that it may leave unanswered for want of memory.
    ghost starves: { Self → List Artefact → Ask → Type 0 };

    /// Measures what the question asks for.
    fn measure(&self, artefacts: &ArtefactBook, ask: &Ask) -> Result<Answer, MeasureError>
        ensures { MatchMeasured
            result
            (gives self.now artefacts.now ask.now)
            (fails self.now artefacts.now ask.now)
            (starves self.now artefacts.now ask.now) };
}
