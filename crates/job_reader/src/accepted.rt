use bench_trait::ArtefactBook;
use byte_ports::Bytes;
use place_check::{Checked, Places};
use reference_book::References;

/// A bundle to be appraised, and the session that it belongs to.
#[derive(Debug, Drop)]
pub struct BundleIn {
    pub session: u32,
    pub bytes: Bytes,
}

/// A job: its places, the artefacts that are measured, the sessions to be run, and what an appraisal
/// expects and looks at. In a job that `job_of` gives, each session was checked against the places.
#[derive(Drop)]
pub struct Job {
    pub places: Places,
    pub artefacts: ArtefactBook,
    pub sessions: Vec<Checked>,
    pub references: References,
    pub bundle: Option<BundleIn>,
}
