use bench_trait::ArtefactBook;
use place_check::{Checked, Places};

/// What a session is opened with.
#[derive(Drop)]
pub struct Opened<'a, B> {
    pub checked: &'a Checked,
    pub places: &'a Places,
    pub artefacts: &'a ArtefactBook,
    pub bench: &'a B,
}
