ghost use Rattle.std.specs.Prelude.{◌≡◌, ◌<◌, ◌≤◌, ◌+◌, ◌^◌, ℕ, List, [], ◌∷◌, length, slice_index_or, IsSome, IfOk};
ghost use Rattle.evidence_types.specs.Bytes.{FitsBundle};
ghost use Rattle.evidence_types.specs.Evidence.{Evidence, seq_pair, par_pair};
ghost use Rattle.evidence_store.specs.Kept.{value_at};
ghost use Rattle.seal_hmac.specs.Keys.{key_of};
ghost use Rattle.avm_code.specs.declared.program.Block.{Block};
ghost use Rattle.avm_code.specs.Order.{HasBlock, code_called};
ghost use Rattle.machine_tables.specs.Row.{Setting, NewFits, sealed, top, measured, answered, replied, joined};
ghost use Rattle.avm_core.specs.Machine.{local_in, local_of, values_at, setting_in, setting_of, next_of, Stands, StandsIn, StandsForSome, StandsAgain, Runs, KnowsIds, AwaitsAnswer, AwaitsReply, AwaitsChild};
ghost use Rattle.avm_core.specs.Steps.{Steps, Gives, deed_of, IsAwaited};
ghost use Rattle.avm_core.specs.Arms.{passed, turned};

use crate::arms::{instr_at, key_for, parts};
use crate::stack::Stack;
use crate::stepped::Stepped;
use avm_code::{Block, BlockName, Instr, Program};
use evidence_store::{EvId, Store};
use evidence_types::Answer;
use phrase_tree::{NoMemory, Place, Split};
use seal_hmac::KeyRing;

/// A machine that runs one block of a program. It lies inline, some 560 bytes.
#[derive(Debug, Drop)]
pub struct Machine {
    name: BlockName,
    at: u32,
    evidence: EvId,
    pub(crate) stack: Stack,
}

impl Machine {
    /// A machine at the first instruction of the block of this name, on this evidence. Takes no memory.
    pub fn start(name: BlockName, evidence: EvId) -> Machine
        ensures name { result.name ≡ name }
        ensures evidence { result.evidence ≡ evidence }
        ensures begins { (code : List Instr) (values : List Evidence) →
            local_in code values result ≡ record { rest = code; evidence = value_at values evidence; stack = [] } }
        ensures stands { (program : List Block) (keys : List (List ℕ × List ℕ)) (count : ℕ) →
            Runs program keys → HasBlock program name → evidence < count → Stands program keys count result }
    {
        Machine {
            name,
            at: 0,
            evidence,
            stack: Stack::empty(),
        }
    }

    /// The name of the block that it runs.
    pub fn name(&self) -> BlockName
        ensures { result ≡ self.now.name }
    {
        self.name
    }

    /// The index of the next instruction in the block's code.
    pub fn at(&self) -> u32
        ensures { result ≡ self.now.at }
    {
        self.at
    }

    /// Its evidence.
    pub fn evidence(&self) -> EvId
        ensures { result ≡ self.now.evidence }
    {
        self.evidence
    }

    /// Does the next instruction, or says what it needs. An error is want of memory, after which the
    /// machine and the store's values are as before; it doesn't happen if the store has room.
    ///
    /// Takes constant time, apart from hashing and from finding its block by binary search.
    pub fn step(
        &mut self,
        program: &Program,
        store: &mut Store,
        keys: &KeyRing,
        nonce: &[u8; 16],
    ) -> Result<Stepped, NoMemory>
        requires stands { Stands program.now keys.now (length store.old.values) self.old }
        requires fits { NewFits (setting_of program.now keys.now nonce.now self.old.name)
            (next_of program.now self.old) (local_of program.now store.old.values self.old) }
        ensures steps { Steps (setting_of program.now keys.now nonce.now self.old.name)
            (code_called program.now self.old.name) (next_of program.now self.old) self.old store.old result self.new store.new }
        ensures awaits { IfOk result (λ stepped. IsAwaited (deed_of store.new.values stepped) (next_of program.now self.new)) }
        ensures stands { Stands program.now keys.now (length store.new.values) self.new }
    {
        let block = program.block(self.name);
        self.step_in(block, store, keys, nonce)
    }

    /// A step in the block that the machine runs.
    fn step_in(
        &mut self,
        block: &Block,
        store: &mut Store,
        keys: &KeyRing,
        nonce: &[u8; 16],
    ) -> Result<Stepped, NoMemory>
        requires stands { StandsIn block.now.code block.now.place keys.now (length store.old.values) self.old }
        requires fits { NewFits (setting_in block.now.place keys.now nonce.now)
            (slice_index_or block.now.code self.old.at Instr.End) (local_in block.now.code store.old.values self.old) }
        ensures { Steps (setting_in block.now.place keys.now nonce.now)
            block.now.code (slice_index_or block.now.code self.old.at Instr.End) self.old store.old result self.new store.new }
    {
        match instr_at(block.code.items(), self.at) {
            Instr::Copy(event) => {
                self.go_on(self.evidence);
                Ok(Stepped::Event(*event))
            }
            Instr::Usm(event, _) => Ok(Stepped::NeedsAnswer { event: *event }),
            Instr::Kim(event, _, _) => Ok(Stepped::NeedsAnswer { event: *event }),
            Instr::Sign(event) => self.sign(*event, block.place, store, keys, nonce),
            Instr::Hash(event) => {
                let made = store.hashed(*event, self.evidence);
                self.happen_with(*event, made)
            }
            Instr::Null(event) => {
                let made = store.empty();
                self.happen_with(*event, made)
            }
            Instr::Split(event, split) => self.split(*event, *split, store),
            Instr::Swap => {
                self.swap();
                Ok(Stepped::Silent)
            }
            Instr::JoinSeq(event) => self.join_seq(*event, store),
            Instr::Send(event, place) => {
                let evidence = self.evidence;
                self.go_on(evidence);
                Ok(Stepped::Sent {
                    name: *event,
                    place: *place,
                    evidence,
                })
            }
            Instr::Recv(event, name) => Ok(Stepped::NeedsReply {
                event: *event,
                name: *name,
            }),
            Instr::Fork(event, split) => self.fork(*event, *split, store),
            Instr::JoinPar(event, name) => Ok(Stepped::NeedsChild {
                event: *event,
                name: *name,
            }),
            Instr::End => Ok(Stepped::Ended(self.evidence)),
        }
    }

    /// The instruction is over, with this evidence.
    fn go_on(&mut self, evidence: EvId)
        requires { self.old.at + 1 < 2 ^ 32 }
        ensures { self.new ≡ passed evidence self.old.stack self.old }
    {
        self.evidence = evidence;
        self.at += 1;
    }

    /// The instruction is over, with the evidence that was made, if any was.
    fn go_on_with(&mut self, made: Result<EvId, NoMemory>) -> Result<(), NoMemory>
        requires { self.old.at + 1 < 2 ^ 32 }
        ensures { (result, self.new) ≡ turned tt made self.old.stack self.old }
    {
        match made {
            Ok(id) => {
                self.go_on(id);
                Ok(())
            }
            Err(error) => Err(error),
        }
    }

    /// The same, and its event happened.
    fn happen_with(&mut self, event: u32, made: Result<EvId, NoMemory>) -> Result<Stepped, NoMemory>
        requires { self.old.at + 1 < 2 ^ 32 }
        ensures { (result, self.new) ≡ turned (Stepped.Event event) made self.old.stack self.old }
    {
        match made {
            Ok(id) => {
                self.go_on(id);
                Ok(Stepped::Event(event))
            }
            Err(error) => Err(error),
        }
    }

    /// The evidence under the seal of the place.
    fn sign(
        &mut self,
        event: u32,
        place: Place,
        store: &mut Store,
        keys: &KeyRing,
        nonce: &[u8; 16],
    ) -> Result<Stepped, NoMemory>
        requires knows { KnowsIds (length store.old.values) self.old }
        requires at { self.old.at + 1 < 2 ^ 32 }
        requires key { IsSome (key_of keys.now place) }
        requires fits { FitsBundle (sealed (setting_in place keys.now nonce.now) event (value_at store.old.values self.old.evidence)) }
        ensures { (code : List Instr) → self.old.at < length code →
            Steps (setting_in place keys.now nonce.now) code (Instr.Sign event) self.old store.old result self.new store.new }
    {
        let key = key_for(keys, place);
        let made = store.sealed(event, place, nonce, key, self.evidence);
        self.happen_with(event, made)
    }

    /// What the right arm gets is pushed, and what the left arm gets becomes the evidence.
    fn split(&mut self, event: u32, split: Split, store: &mut Store) -> Result<Stepped, NoMemory>
        requires knows { KnowsIds (length store.old.values) self.old }
        requires at { self.old.at + 1 < 2 ^ 32 }
        requires room { length self.old.stack < 65 }
        ensures { (setting : Setting) (code : List Instr) → self.old.at < length code →
            Steps setting code (Instr.Split event split) self.old store.old result self.new store.new }
    {
        let (left, right) = match parts(split, self.evidence, store) {
            Ok(arms) => arms,
            Err(_) => return Err(NoMemory),
        };
        self.stack.push(right);
        self.go_on(left);
        Ok(Stepped::Event(event))
    }

    /// The evidence and the top of the stack change places.
    fn swap(&mut self)
        requires top { 1 ≤ length self.old.stack }
        requires room { length self.old.stack ≤ 65 }
        requires at { self.old.at + 1 < 2 ^ 32 }
        ensures { (id : ℕ) × ((rest : List ℕ) × (self.old.stack ≡ id ∷ rest)
            × (self.new ≡ passed id (self.old.evidence ∷ rest) self.old)) }
    {
        let top = self.stack.pop();
        self.stack.push(self.evidence);
        self.go_on(top);
    }

    /// The pair of the top of the stack and the evidence; the top is taken.
    fn join_seq(&mut self, event: u32, store: &mut Store) -> Result<Stepped, NoMemory>
        requires knows { KnowsIds (length store.old.values) self.old }
        requires at { self.old.at + 1 < 2 ^ 32 }
        requires top { 1 ≤ length self.old.stack }
        requires fits { FitsBundle (seq_pair (top (values_at store.old.values self.old.stack)) (value_at store.old.values self.old.evidence)) }
        ensures { (setting : Setting) (code : List Instr) → self.old.at < length code →
            Steps setting code (Instr.JoinSeq event) self.old store.old result self.new store.new }
    {
        let left = self.stack.top();
        let evidence = match store.pair(false, left, self.evidence) {
            Ok(id) => id,
            Err(_) => return Err(NoMemory),
        };
        self.stack.pop();
        self.go_on(evidence);
        Ok(Stepped::Event(event))
    }

    /// A block starts on what the right arm gets, and what the left arm gets becomes the evidence.
    fn fork(&mut self, event: u32, split: Split, store: &mut Store) -> Result<Stepped, NoMemory>
        requires knows { KnowsIds (length store.old.values) self.old }
        requires at { self.old.at + 1 < 2 ^ 32 }
        ensures { (setting : Setting) (code : List Instr) → self.old.at < length code →
            Steps setting code (Instr.Fork event split) self.old store.old result self.new store.new }
    {
        let (left, right) = match parts(split, self.evidence, store) {
            Ok(arms) => arms,
            Err(_) => return Err(NoMemory),
        };
        self.go_on(left);
        Ok(Stepped::Forked {
            name: event,
            evidence: right,
        })
    }

    /// Puts the answer that its next instruction needs on top of the evidence. An error is want of
    /// memory, after which the machine and the store's values are as before; it doesn't happen if the
    /// store has room.
    pub fn give_answer(
        &mut self,
        program: &Program,
        store: &mut Store,
        answer: &Answer,
    ) -> Result<(), NoMemory>
        requires stands { StandsForSome program.now (length store.old.values) self.old }
        requires awaits { AwaitsAnswer (next_of program.now self.old) }
        requires fits { FitsBundle (measured (next_of program.now self.old) answer.now (value_at store.old.values self.old.evidence)) }
        ensures gives { Gives (code_called program.now self.old.name)
            (answered (next_of program.now self.old) answer.now (local_of program.now store.old.values self.old))
            self.old store.old result self.new store.new }
        ensures stands { StandsAgain program.now (length store.old.values) self.old (length store.new.values) self.new }
    {
        let block = program.block(self.name);
        self.answer_in(block, store, answer)
    }

    fn answer_in(
        &mut self,
        block: &Block,
        store: &mut Store,
        answer: &Answer,
    ) -> Result<(), NoMemory>
        requires knows { KnowsIds (length store.old.values) self.old }
        requires within { self.old.at < length block.now.code }
        requires short { length block.now.code < 2 ^ 32 }
        requires awaits { AwaitsAnswer (slice_index_or block.now.code self.old.at Instr.End) }
        requires fits { FitsBundle (measured (slice_index_or block.now.code self.old.at Instr.End) answer.now (value_at store.old.values self.old.evidence)) }
        ensures { Gives block.now.code
            (answered (slice_index_or block.now.code self.old.at Instr.End) answer.now (local_in block.now.code store.old.values self.old))
            self.old store.old result self.new store.new }
    {
        let made = match instr_at(block.code.items(), self.at) {
            Instr::Usm(event, _) => store.measured(*event, false, answer, self.evidence),
            Instr::Kim(event, _, _) => store.measured(*event, true, answer, self.evidence),
            _ => unreachable!(),
        };
        self.go_on_with(made)
    }

    /// The reply that its next instruction needs becomes the evidence. Takes no memory.
    pub fn give_reply(&mut self, program: &Program, evidence: EvId)
        requires stands { (count : ℕ) × StandsForSome program.now count self.old }
        requires awaits { AwaitsReply (next_of program.now self.old) }
        ensures name { self.new.name ≡ self.old.name }
        ensures replied { (values : List Evidence) →
            local_of program.now values self.new ≡ replied (value_at values evidence) (local_of program.now values self.old) }
        ensures stands { (count : ℕ) → evidence < count → StandsAgain program.now count self.old count self.new }
    {
        let _ = program;
        self.go_on(evidence);
    }

    /// Pairs the evidence with the result of the block that its next instruction needs. An error is want
    /// of memory, after which the machine and the store's values are as before; it doesn't happen if the
    /// store has room.
    pub fn give_child(
        &mut self,
        program: &Program,
        store: &mut Store,
        evidence: EvId,
    ) -> Result<(), NoMemory>
        requires stands { StandsForSome program.now (length store.old.values) self.old }
        requires awaits { AwaitsChild (next_of program.now self.old) }
        requires child { evidence < length store.old.values }
        requires fits { FitsBundle (par_pair (value_at store.old.values self.old.evidence) (value_at store.old.values evidence)) }
        ensures gives { Gives (code_called program.now self.old.name)
            (joined (value_at store.old.values evidence) (local_of program.now store.old.values self.old))
            self.old store.old result self.new store.new }
        ensures stands { StandsAgain program.now (length store.old.values) self.old (length store.new.values) self.new }
    {
        let _ = program;
        let made = store.pair(true, self.evidence, evidence);
        self.go_on_with(made)
    }
}
