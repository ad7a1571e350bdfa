ghost use Rattle.std.specs.Prelude.{◌≡◌, ◌≤◌, ◌<◌, [], length, IfOk, OnErr, OnOk};
ghost use Rattle.seal_hmac.specs.Seal.{seal_of, hash_of};
ghost use Rattle.evidence_types.specs.Evidence as evidence;
ghost use Rattle.evidence_types.specs.Bundle.{IsBundleOf};
ghost use Rattle.evidence_types.specs.Bytes.{encoding, bundle, FitsBundle};
ghost use Rattle.evidence_types.specs.WellFormed.{IsWellFormed};
ghost use Rattle.evidence_store.specs.Kept.{value_at, Adds, measured, paired};
ghost use Rattle.evidence_store.specs.Nodes.{AnswerWithin, NamesBelow, full, node_value};

use crate::bundle::bundle;
use crate::digest::feed_value;
use crate::id::EvId;
use crate::node::{Node, Span};
use crate::nodes::Nodes;
use byte_ports::Bytes;
use evidence_types::Answer;
use phrase_tree::{NoMemory, Place};
use seal_hmac::{Digester, Key};
use std::alloc::Global;
use std::marker::Model;

/// Values of evidence, each under an id that stands for it for good.
///
/// A value is kept as one node that names its parts by their ids, so values share parts, and one may
/// have far more bytes than the store has nodes. Every value has at most 262,144 bytes and nests at
/// most 1,025 deep, which is the condition of each addition. A node takes 48 bytes, and an answer its
/// length beside them. Room for an addition is room for a node and for 1,024 bytes of an answer; what of it
/// is not used is not touched.
///
/// If the store has room, an addition takes no memory and succeeds; otherwise it may take memory, and
/// an error is want of memory, after which everything is as before. An addition takes constant time,
/// except for seals and hashes, which take time linear in the bytes that they cover.
#[derive(Debug, Drop)]
pub struct Store {
    kept: Nodes,
}

impl Model for Store {
    ghost use Rattle.evidence_store.specs.Kept.{Kept, kept_code};
    ghost use Rattle.evidence_store.specs.Nodes.{AreKept, kept_values};
    ghost use Rattle.evidence_store.specs.Room.{HasRoom};

    ghost Value = { Kept };

    ghost coded = { kept_code };

    ghost view = { λ store. record {
      values = kept_values store.kept.answers.items store.kept.list.items;
      spare = store.kept.spare;
    } };

    ghost invariant = { λ store. AreKept store.kept.answers.items store.kept.list.items × HasRoom store.kept };
}

impl Store {
    /// An empty store with room for this many nodes.
    pub fn open(alloc: Global, nodes: u32) -> Result<Store, NoMemory>
        ensures empty { IfOk result (λ store. store.values ≡ []) }
        ensures spare { IfOk result (λ store. nodes ≤ store.spare) }
    {
        match Nodes::open(alloc, nodes) {
            Ok(kept) => Ok(Store { kept }),
            Err(_) => Err(NoMemory),
        }
    }

    /// Takes room for this many more nodes. An error is want of memory.
    pub fn reserve(&mut self, nodes: u32) -> Result<(), NoMemory>
        ensures spare { OnOk result (nodes ≤ self.new.spare) }
        ensures rises { self.old.spare ≤ self.new.spare }
        ensures err { OnErr result (self.new.spare ≡ self.old.spare) }
        ensures values { self.new.values ≡ self.old.values }
    {
        match self.kept.reserve(nodes) {
            Ok(()) => Ok(()),
            Err(_) => Err(NoMemory),
        }
    }

    /// Adds the value of a node without an answer.
    fn add(&mut self, node: Node) -> Result<EvId, NoMemory>
        requires plain { AnswerWithin [] node }
        requires names { NamesBelow (length self.old.values) (full [] node) }
        requires fits { FitsBundle (node_value self.old.values (full [] node)) }
        ensures { Adds self.old (node_value self.old.values (full [] node)) result self.new }
    {
        // Its fields are as long as a head's, so its value is well formed.
        let _ = node.head(&[]);
        let place = match self.kept.push(&[], node) {
            Ok(place) => place,
            Err(_) => return Err(NoMemory),
        };
        Ok(EvId::of(place))
    }

    /// Adds empty evidence.
    pub fn empty(&mut self) -> Result<EvId, NoMemory>
        ensures { Adds self.old evidence.empty result self.new }
    {
        self.add(Node::Empty)
    }

    /// Adds the nonce of a session.
    pub fn nonce(&mut self, nonce: &[u8; 16]) -> Result<EvId, NoMemory>
        ensures { Adds self.old (evidence.nonce nonce.now) result self.new }
    {
        self.add(Node::Nonce(*nonce))
    }

    /// Adds the answer of the measurement at this event, over the evidence before it; `kim` says
    /// whether a target place was measured. The answer's bytes are copied once, behind those of the
    /// other answers.
    pub fn measured(
        &mut self,
        event: u32,
        kim: bool,
        answer: &Answer,
        under: EvId,
    ) -> Result<EvId, NoMemory>
        requires under { under < length self.old.values }
        requires fits { FitsBundle (measured kim event answer.now (value_at self.old.values under)) }
        ensures { Adds self.old (measured kim event answer.now (value_at self.old.values under)) result self.new }
    {
        let bytes = answer.bytes();
        let span = Span::after(self.kept.answers.len(), bytes);
        let node = Node::answered(event, kim, span, under);
        let place = match self.kept.push(bytes, node) {
            Ok(place) => place,
            Err(_) => return Err(NoMemory),
        };
        Ok(EvId::of(place))
    }

    /// Adds the seal of a place over a value, at this event of a session with that nonce, with the
    /// value under it. It takes time linear in the value's bytes.
    pub fn sealed(
        &mut self,
        event: u32,
        place: Place,
        nonce: &[u8; 16],
        key: &Key,
        under: EvId,
    ) -> Result<EvId, NoMemory>
        requires under { under < length self.old.values }
        requires fits { let value = value_at self.old.values under in
            FitsBundle (evidence.seal event (seal_of key.now place nonce.now event (encoding value)) value) }
        ensures { let value = value_at self.old.values under in
            Adds self.old (evidence.seal event (seal_of key.now place nonce.now event (encoding value)) value) result self.new }
    {
        let mut digester = Digester::seal(key, place, nonce, event);
        feed_value(
            &mut digester,
            &self.kept.list,
            &self.kept.answers,
            under.index(),
        );
        self.add(Node::Seal(event, digester.finish(), under))
    }

    /// Adds the hash that stands in place of a value, at this event. It takes time linear in the
    /// value's bytes.
    pub fn hashed(&mut self, event: u32, under: EvId) -> Result<EvId, NoMemory>
        requires { under < length self.old.values }
        ensures { Adds self.old (evidence.hash event (hash_of (encoding (value_at self.old.values under)))) result self.new }
    {
        let mut digester = Digester::hash();
        feed_value(
            &mut digester,
            &self.kept.list,
            &self.kept.answers,
            under.index(),
        );
        self.add(Node::Hash(event, digester.finish()))
    }

    /// Adds the pair of what the two arms of a branch made.
    pub fn pair(&mut self, parallel: bool, left: EvId, right: EvId) -> Result<EvId, NoMemory>
        requires left { left < length self.old.values }
        requires right { right < length self.old.values }
        requires fits { FitsBundle (paired parallel (value_at self.old.values left) (value_at self.old.values right)) }
        ensures { Adds self.old (paired parallel (value_at self.old.values left) (value_at self.old.values right)) result self.new }
    {
        if parallel {
            return self.add(Node::ParPair(left, right));
        }
        self.add(Node::SeqPair(left, right))
    }

    /// The bundle of a value, made in one allocation of its size, in time linear in it.
    pub fn emit(&self, id: EvId) -> Result<Bytes, NoMemory>
        requires { id < length self.now.values }
        ensures bundle { IfOk result (λ bytes. bytes ≡ bundle (value_at self.now.values id)) }
        // It is one that decoding gives the value of.
        ensures readable { IfOk result (λ bytes. IsBundleOf bytes (value_at self.now.values id)) }
        ensures fits { FitsBundle (value_at self.now.values id) }
    {
        self.fits_bundle(id);
        bundle(
            *self.kept.list.allocator(),
            &self.kept.list,
            &self.kept.answers,
            id.index(),
        )
    }

    /// Each value is well formed, and can be written as a bundle. It changes nothing.
    pub fn fits_bundle(&self, id: EvId)
        requires { id < length self.now.values }
        ensures fits { FitsBundle (value_at self.now.values id) }
        ensures well_formed { IsWellFormed (value_at self.now.values id) }
    {
        let _ = self.kept.list.len();
    }
}
