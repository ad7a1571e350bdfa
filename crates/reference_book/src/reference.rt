use bench_trait::AskKind;
use evidence_types::Answer;
use phrase_tree::{Asp, Place};

/// The answer that is expected when this place takes this measurement of itself or of a target.
#[derive(Debug, Drop)]
pub struct Reference {
    pub place: Place,
    pub kind: AskKind,
    pub asp: Asp,
    pub answer: Answer,
}
