ghost use Rattle.std.specs.Prelude.{◌≡◌, ◌++◌, IfOk, OnOk};
ghost use Rattle.load_runner.specs.Figures.{has_accepted_all};
ghost use Rattle.load_runner.specs.Text.{digest_line, load_text, number_line};

use byte_ports::Bytes;
use phrase_tree::{NoMemory, push_bytes, push_decimal};
use std::alloc::Global;

/// What is counted of the sessions of a made job that were run: how many they are, the events of their
/// phrases, how many are done, how many of these have a bundle of which each verdict is good, and the SHA-256
/// digest (FIPS 180-4) of the bundles one behind the other.
#[derive(Clone, Copy, Debug, PartialEq, Eq)]
pub struct Figures {
    pub sessions: u32,
    pub events: u32,
    pub done: u32,
    pub accepted: u32,
    pub digest: [u8; 32],
}

impl Figures {
    /// Whether each session is done and accepted.
    pub fn has_accepted_all(&self) -> bool
        ensures { result ≡ has_accepted_all self.now }
    {
        self.done == self.sessions && self.accepted == self.sessions
    }

    /// The report of the run of the job of this number: six lines. An error is want of memory.
    pub fn text(&self, alloc: Global, number: u32) -> Result<Bytes, NoMemory>
        ensures { IfOk result (λ text. text ≡ load_text number self.now) }
    {
        let mut text = Vec::new(alloc);
        push_line(&mut text, b"load ", number)?;
        push_line(&mut text, b"sessions ", self.sessions)?;
        push_line(&mut text, b"events ", self.events)?;
        push_line(&mut text, b"done ", self.done)?;
        push_line(&mut text, b"accepted ", self.accepted)?;
        push_digest(&mut text, &self.digest)?;
        Ok(Bytes::of(text))
    }
}

fn push_line(text: &mut Vec<u8>, word: &[u8], number: u32) -> Result<(), NoMemory>
    ensures { OnOk result (text.new.items ≡ text.old.items ++ number_line word.now number) }
{
    push_bytes(text, word)?;
    push_decimal(text, number)?;
    push_bytes(text, b"\n")
}

fn push_digest(text: &mut Vec<u8>, digest: &[u8]) -> Result<(), NoMemory>
    ensures { OnOk result (text.new.items ≡ text.old.items ++ digest_line digest.now) }
{
    push_bytes(text, b"digest ")?;
    let digits = hex::encode(*text.allocator(), digest)?;
    push_bytes(text, digits.as_bytes())?;
    push_bytes(text, b"\n")
}
