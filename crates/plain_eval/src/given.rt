use evidence_types::Answers;
use phrase_tree::{Phrase, Place};
use seal_hmac::KeyRing;

/// The session whose bundle is made, and what its value is made from.
#[derive(Drop)]
pub(crate) struct Given<'a> {
    pub(crate) phrase: &'a Phrase,
    pub(crate) root: Place,
    pub(crate) nonce: &'a [u8; 16],
    pub(crate) answers: &'a Answers,
    pub(crate) keys: &'a KeyRing,
}
