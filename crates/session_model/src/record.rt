ghost use Rattle.std.specs.Prelude.{◌≡◌};

use bench_trait::BenchFault;
use byte_ports::Bytes;
use evidence_types::Answers;
use phrase_tree::Trace;

/// What is recorded of a session. `recorded` gives the record of the definitions that it stands for.
#[derive(Debug, Drop)]
pub enum Record {
    Done(DoneRecord),
    Failed(FailRecord),
}

/// A session that is done: its events in their order, its answers, and its bundle.
#[derive(Debug, Drop)]
pub struct DoneRecord {
    pub trace: Trace,
    pub answers: Answers,
    pub bundle: Bytes,
}

/// A session that failed: the event, its fault, and the events before it.
#[derive(Debug, Drop)]
pub struct FailRecord {
    pub event: u32,
    pub fault: BenchFault,
    pub trace: Trace,
}

impl Record {
    ghost use Rattle.session_model.specs.Record.{is_failed};
    ghost use Rattle.session_model.specs.Recorded.{recorded};

    /// Whether the session failed.
    pub fn is_failed(&self) -> bool
        ensures { result ≡ is_failed (recorded self.now) }
    {
        match self {
            Record::Done(_) => false,
            Record::Failed(_) => true,
        }
    }
}
