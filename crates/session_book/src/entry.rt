use avm_code::BlockName;
use bench_trait::BenchFault;
use evidence_store::EvId;
use evidence_types::Answer;
use phrase_tree::Place;

/// A move of a session: a block goes on, a block asks, the first request of a place is delivered.
#[derive(Clone, Copy, Debug, PartialEq, Eq)]
pub enum Move {
    Run(BlockName),
    Ask(BlockName),
    Deliver(Place),
}

/// An entry of a session's history. All but the opening have the number of the pass that made them.
#[derive(Debug, Drop)]
pub enum Entry {
    Opened,
    Played {
        pass: u32,
        step: Move,
    },
    Answered {
        pass: u32,
        event: u32,
        answer: Answer,
    },
    Failed {
        pass: u32,
        event: u32,
        fault: BenchFault,
    },
    Starved {
        pass: u32,
        event: u32,
    },
}

/// How a session stands.
#[derive(Clone, Copy, Debug, PartialEq, Eq)]
pub enum State {
    Open,
    /// Its root block is over.
    Done,
    /// A fault was recorded.
    Failed,
    /// A bench's want of memory was recorded.
    Starved,
}

/// An entry as a book keeps it: an answer is the one of an index.
#[derive(Clone, Copy, Debug)]
pub enum Note {
    Opened,
    Ran {
        pass: u32,
        name: BlockName,
    },
    Asked {
        pass: u32,
        name: BlockName,
    },
    Delivered {
        pass: u32,
        place: Place,
    },
    Answered {
        pass: u32,
        at: u32,
    },
    Failed {
        pass: u32,
        event: u32,
        fault: BenchFault,
    },
    Starved {
        pass: u32,
        event: u32,
    },
}

/// An ask in flight: the pass that asked, and the block that waits for the answer.
#[derive(Clone, Copy, Debug, PartialEq, Eq)]
pub struct Flight {
    pub pass: u32,
    pub name: BlockName,
}

/// How a session stands, with its result once it is done, and with the event that stopped it.
#[derive(Clone, Copy, Debug, PartialEq, Eq)]
pub enum Ending {
    Open,
    Done(EvId),
    Failed { event: u32, fault: BenchFault },
    Starved { event: u32 },
}
