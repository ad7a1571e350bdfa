ghost use Rattle.std.specs.Prelude.{◌≡◌, ◌<◌, List, [], ◌∷◌, length, slice_set, OnOk, MatchOption};
ghost use Rattle.appraiser.specs.Expected.{Basis};
ghost use Rattle.stream_appraiser.specs.Open.{AreOpen, Closes, FedAt, IsOpen, WasFed, WereFed, ends_at};
ghost use Rattle.stream_appraiser.specs.Standing as states;
ghost use Rattle.stream_appraiser.specs.Standing.{fed_all, verdict_of};

use appraiser::{Verdict, VerdictOf};
use phrase_tree::NoMemory;
use seal_hmac::{Digester, same};
use std::alloc::Global;
use std::marker::Model;

/// A seal of the value of which not all is there that it is over: so many parts of the shape come behind that,
/// and its verdict stands at this index.
#[derive(Drop)]
pub struct OpenSeal {
    pub digester: Digester,
    pub depth: usize,
    pub index: usize,
    pub event: u32,
    pub bytes: [u8; 32],
}

impl OpenSeal {
    fn feed(&mut self, bytes: &[u8])
        ensures { WasFed bytes.now self.old self.new }
    {
        self.digester.update(bytes);
    }

    /// Its verdict, once all was fed.
    fn verdict(self) -> Verdict
        ensures { (basis : Basis) (one : states.OpenSeal) → IsOpen basis self one → result ≡ verdict_of basis one }
    {
        let code = self.digester.finish();
        Verdict {
            of: VerdictOf::Seal(self.event),
            good: same(&self.bytes, &code),
        }
    }
}

/// Feeds bytes to one of these.
fn feed_at(seals: &mut Vec<OpenSeal>, index: usize, bytes: &[u8])
    requires { index < length seals.old.items }
    ensures { FedAt bytes.now index seals.old.items seals.new.items }
{
    seals[index].feed(bytes);
}

/// Feeds bytes to each of these.
fn feed_each(seals: &mut Vec<OpenSeal>, bytes: &[u8])
    ensures { WereFed bytes.now seals.old.items seals.new.items }
{
    for index in 0..seals.len() {
        feed_at(seals, index, bytes);
    }
}

/// The open seals. Clauses see the innermost first.
#[derive(Drop)]
pub struct OpenSeals {
    seals: Vec<OpenSeal>,
}

impl Model for OpenSeals {
    ghost use Rattle.std.specs.Prelude.{List, reverse};
    ghost use Rattle.stream_appraiser.specs.declared.seals.OpenSeal.{OpenSeal};

    ghost Value = { List OpenSeal };

    ghost view = { λ list. reverse list.seals.items };
}

impl OpenSeals {
    pub fn none(alloc: Global) -> OpenSeals
        ensures { result ≡ [] }
    {
        OpenSeals {
            seals: Vec::new(alloc),
        }
    }

    pub fn push(&mut self, one: OpenSeal) -> Result<(), NoMemory>
        ensures { OnOk result (self.new ≡ one ∷ self.old) }
    {
        match self.seals.push(one) {
            Ok(()) => Ok(()),
            Err(_) => Err(NoMemory),
        }
    }

    fn pop(&mut self) -> Option<OpenSeal>
        ensures { MatchOption result (self.old ≡ [] × self.new ≡ []) (λ one. self.old ≡ one ∷ self.new) }
    {
        self.seals.pop()
    }

    /// Feeds bytes to each.
    pub fn feed(&mut self, bytes: &[u8])
        ensures { (basis : Basis) (states : List states.OpenSeal) → AreOpen basis self.old states → AreOpen basis self.new (fed_all bytes.now states) }
    {
        feed_each(&mut self.seals, bytes);
    }

    /// Whether the innermost has so many parts of the shape behind it.
    fn ends_at(&self, depth: usize) -> bool
        ensures { result ≡ ends_at depth self.now }
    {
        match self.seals.as_slice() {
            [.., last] => last.depth == depth,
            [] => false,
        }
    }
}

/// Puts a verdict in its place.
fn settle(found: &mut Vec<Verdict>, index: usize, verdict: Verdict)
    ensures { found.new.items ≡ slice_set found.old.items index verdict }
{
    if index < found.len() {
        found[index] = verdict;
    }
}

/// Judges the seals that end where so many parts of the shape are to come.
pub fn close(seals: &mut OpenSeals, depth: usize, found: &mut Vec<Verdict>)
    ensures { Closes depth seals.old found.old.items seals.new found.new.items }
{
    while seals.ends_at(depth) {
        let Some(one) = seals.pop() else {
            unreachable!()
        };
        let index = one.index;
        settle(found, index, one.verdict());
    }
}
