use bench_trait::BenchFault;
use session_book::Move;

/// An entry as it stands in the bytes of a transcript.
#[derive(Clone, Copy, Debug)]
pub enum Written<'a> {
    Played {
        pass: u32,
        step: Move,
    },
    Answered {
        pass: u32,
        event: u32,
        answer: &'a [u8],
    },
    Failed {
        pass: u32,
        event: u32,
        fault: BenchFault,
    },
}
