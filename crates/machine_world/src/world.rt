ghost use Rattle.std.specs.Prelude.{◌≡◌, ◌<◌, ◌≤◌, ◌++◌, ◌∷◌, [], ℕ, Ok, length, Some, None, IfSome, IfOk, List, if◌then◌else◌};
ghost use Rattle.std.specs.Option.{option_map};
ghost use Rattle.std.specs.Vec.{with_item};
ghost use Rattle.evidence_types.specs.Bytes.{FitsBundle, bundle};
ghost use Rattle.evidence_types.specs.Evidence as evidence;
ghost use Rattle.evidence_store.specs.Kept.{value_at};
ghost use Rattle.session_runs.specs.Standing.{is_open, played, run, deliver, answered, of, root};
ghost use Rattle.session_model.specs.Value.{Makings};
ghost use Rattle.rising_list.specs.Rising.{find};
ghost use Rattle.avm_code.specs.Blocks.{waiting_for};
ghost use Rattle.avm_code.specs.Order.{HasBlock, code_called};
ghost use Rattle.machine_tables.specs.Row.{NewFits, measured, answered as row_answered, row};
ghost use Rattle.machine_tables.specs.Tables.{running, over, started, after_end, opening_tables, step_tables, put_place, put_reply, next_of as next_in_tables, result_of as result_in};
ghost use Rattle.machine_tables.specs.Allowed.{MayRun, MayDeliver, MayAnswer};
ghost use Rattle.avm_core.specs.Machine.{local_of, setting_of, next_of, Stands, StandsForSome, StandsAgain, AwaitsAnswer, AwaitsReply, AwaitsChild};
ghost use Rattle.avm_core.specs.Steps.{Steps, Gives, deed_of, IsAwaited, most_added};
ghost use Rattle.branch_join.specs.Blocks.{state_of, result_of};
ghost use Rattle.machine_world.specs.Seen.{IsPlace};
ghost use Rattle.machine_world.specs.Cells.{Book, block_of, tables_of, book_after, with_answer, opening_book, makings_of};
ghost use Rattle.machine_world.specs.World.{CanPlay, IsCounted, IsWorld, IsWorldForSome, IsWorldAgain, IsListed, HasRoom, HasRoomFor};
ghost use Rattle.machine_world.specs.Calls.{RunsAt, CanSettle, SettlesAs, WaitsFor, requests_of, replies_of, runner_at, settled_tables, with_cell};
ghost use Rattle.machine_world.specs.Does.{Does, IfMoves};
ghost use Rattle.machine_world.specs.Touched.{TouchesAt};
ghost use Rattle.machine_world.specs.Answers.{IfWaits, IsUnchanged, SendsTo, IfSent, next_by_book, ask_of, first_number, IsStarted};

use crate::moved::{Moved, Ready, Touched};
use crate::places::index_of_place;
use crate::reading::{ask_for, instr_of, name_at, place_of, ready_by, touched_by};
use crate::runner::{Runner, idle};
use crate::waiters::waiters;
use avm_code::{BlockName, Program};
use avm_core::{Machine, Stepped};
use bench_trait::Ask;
use branch_join::{BlockState, BlockTable};
use byte_ports::Bytes;
use evidence_store::{EvId, Store};
use evidence_types::Answer;
use phrase_tree::{NoMemory, Place};
use place_mail::{Mailboxes, Request};
use seal_hmac::KeyRing;
use std::alloc::Global;

/// The machines of a session, one for each block of its program, and what they share: the store of
/// evidence, the states of blocks, and the mail between places.
#[derive(Debug, Drop)]
pub struct World {
    program: Program,
    places: Vec<Place>,
    store: Store,
    table: BlockTable,
    mail: Mailboxes,
    // The machine of each block, and the block that waits for it, in the order of the program.
    runners: Vec<Runner>,
    waiters: Vec<BlockName>,
}

impl World {
    /// The machines of a program between these places: the root's runs from its start on the nonce, and
    /// no other is started. There is room for all that can come, given at least the number of the
    /// program's events; no other call of a world takes memory, but for `emit`. An error is want of
    /// memory.
    pub fn open(
        alloc: Global,
        program: Program,
        places: Vec<Place>,
        nonce: &[u8; 16],
        events: u32,
    ) -> Result<World, NoMemory>
        requires can_play { (keys : List (List ℕ × List ℕ)) × CanPlay program keys places.items }
        requires counted { IsCounted program events }
        ensures program { IfOk result (λ world. world.program ≡ program) }
        ensures places { IfOk result (λ world. world.places.items ≡ places.items) }
        ensures world { IfOk result (λ world. (keys : List (List ℕ × List ℕ)) → CanPlay program keys places.items → IsWorld keys world) }
        ensures room { IfOk result (λ world. HasRoom world) }
        ensures opens { IfOk result (λ world. tables_of world opening_book ≡ opening_tables program (evidence.nonce nonce.now)) }
    {
        let mut store = Store::open(alloc, events + 1)?;
        let first = store.nonce(nonce)?;
        let runners = idle(alloc, program.items(), first)?;
        let waiters = waiters(alloc, program.items())?;
        let mail = Mailboxes::open(alloc, places.len() as u32, events)?;
        let mut table = BlockTable::of(alloc, &program)?;
        table.start(BlockName::Root);
        Ok(World {
            program,
            places,
            store,
            table,
            mail,
            runners,
            waiters,
        })
    }

    /// Lets a block do its next instruction, if it runs and what it waits for is there. If it waits,
    /// nothing changes.
    ///
    /// Takes constant time, apart from hashing, from finding blocks by binary search, and from finding
    /// the place of a request.
    pub fn run(&mut self, name: BlockName, keys: &KeyRing, nonce: &[u8; 16]) -> Moved
        requires world { IsWorld keys.now self.old }
        requires room { HasRoom self.old }
        requires may_run { (book : Book) × MayRun self.old.program (makings_of keys.now nonce.now) (tables_of self.old book) (block_of name) }
        ensures moves { (book : Book) (pass : ℕ) → book.state ≡ is_open →
            step_tables self.old.program (makings_of keys.now nonce.now) (tables_of self.old book) (played pass (run (block_of name)))
            ≡ option_map (tables_of self.new) (book_after self.new.store.values name result book) }
        ensures waits { IfWaits result (IsUnchanged self.old self.new) }
        ensures sends { IfSent result (SendsTo self.old self.new) }
        ensures does { IfMoves result (Does self.old.places.items result ((tables_of self.old opening_book).blocks (block_of name))) }
        ensures world { IsWorld keys.now self.new }
        ensures room { HasRoom self.new }
        ensures program { self.new.program ≡ self.old.program }
        ensures places { self.new.places ≡ self.old.places }
    {
        match self.table.state(name) {
            BlockState::Running => self.run_on(name, keys, nonce),
            BlockState::NotStarted => Moved::Waits,
            BlockState::Ended(_) => Moved::Waits,
        }
    }

    /// The same for a block that runs.
    fn run_on(&mut self, name: BlockName, keys: &KeyRing, nonce: &[u8; 16]) -> Moved
        requires world { IsWorld keys.now self.old }
        requires room { HasRoom self.old }
        requires running { state_of self.old.table name ≡ BlockState.Running }
        requires may_run { (book : Book) × MayRun self.old.program (makings_of keys.now nonce.now) (tables_of self.old book) (block_of name) }
        ensures moves { (book : Book) (pass : ℕ) → book.state ≡ is_open →
            step_tables self.old.program (makings_of keys.now nonce.now) (tables_of self.old book) (played pass (run (block_of name)))
            ≡ option_map (tables_of self.new) (book_after self.new.store.values name result book) }
        ensures waits { IfWaits result (IsUnchanged self.old self.new) }
        ensures sends { IfSent result (SendsTo self.old self.new) }
        ensures does { IfMoves result (Does self.old.places.items result ((tables_of self.old opening_book).blocks (block_of name))) }
        ensures world { IsWorld keys.now self.new }
        ensures room { HasRoom self.new }
        ensures program { self.new.program ≡ self.old.program }
        ensures places { self.new.places ≡ self.old.places }
    {
        let index = self.program.index_of(name);
        let stepped = self.step_at(index, keys, nonce);
        self.settle(index, name, stepped)
    }

    /// Delivers the first request that waits at a place, given by its index: its block starts, and the
    /// answer is its number. None exactly if none waits, and then nothing changes. Takes constant time
    /// apart from finding the block.
    pub fn deliver(&mut self, place: u32) -> Option<u32>
        requires world { IsWorldForSome self.old }
        requires room { HasRoom self.old }
        requires may_deliver { (name : List ℕ) × IsPlace self.old.places.items name place × MayDeliver (tables_of self.old opening_book) name }
        ensures delivers { (book : Book) (from : Makings) (pass : ℕ) (name : List ℕ) → book.state ≡ is_open → IsPlace self.old.places.items name place →
            step_tables self.old.program from (tables_of self.old book) (played pass (deliver name))
            ≡ option_map (λ number. tables_of self.new book) result }
        ensures number { (name : List ℕ) → IsPlace self.old.places.items name place →
            result ≡ first_number ((tables_of self.old opening_book).requests name) }
        ensures world { IsWorldAgain self.old self.new }
        ensures room { HasRoom self.new }
        ensures program { self.new.program ≡ self.old.program }
        ensures places { self.new.places ≡ self.old.places }
    {
        match self.mail.take_front(place) {
            None => None,
            Some(request) => {
                self.begin(request.name, request.evidence, true);
                Some(request.name)
            }
        }
    }

    /// A block gets the answer for which it waits. Takes constant time apart from finding the block.
    pub fn answer(&mut self, name: BlockName, answer: &Answer)
        requires world { IsWorldForSome self.old }
        requires room { HasRoom self.old }
        requires may_answer { (event : ℕ) × MayAnswer (tables_of self.old opening_book) event answer.now (block_of name) }
        ensures answers { (book : Book) (from : Makings) (pass event : ℕ) → book.state ≡ is_open → book.in_flight event ≡ Some (pass, block_of name) →
            step_tables self.old.program from (tables_of self.old book) (answered pass event answer.now)
            ≡ Some (tables_of self.new (with_answer event answer.now book)) }
        ensures world { IsWorldAgain self.old self.new }
        ensures room { HasRoom self.new }
        ensures program { self.new.program ≡ self.old.program }
        ensures places { self.new.places ≡ self.old.places }
    {
        let index = self.program.index_of(name);
        match self.answer_at(index, answer) {
            Ok(()) => {}
            Err(_) => unreachable!(),
        }
    }

    /// What a block can do next. Takes constant time apart from finding the block, and what it waits
    /// for, by binary search.
    pub fn next(&self, name: BlockName) -> Ready
        requires { IsWorldForSome self.now }
        ensures { (book : Book) → next_in_tables (tables_of self.now book) (block_of name) ≡ next_by_book book result }
    {
        match self.table.state(name) {
            BlockState::Running => self.next_on(name),
            BlockState::NotStarted => Ready::Waits,
            BlockState::Ended(_) => Ready::Waits,
        }
    }

    /// The question that a block needs answered next; none exactly if it needs no answer. Takes constant
    /// time apart from finding the block.
    pub fn ask(&self, name: BlockName, nonce: &[u8; 16]) -> Option<Ask>
        requires { IsWorldForSome self.now }
        ensures { result ≡ ask_of self.now.program nonce.now (tables_of self.now opening_book) (block_of name) }
    {
        match self.table.state(name) {
            BlockState::Running => self.ask_on(name, nonce),
            BlockState::NotStarted => None,
            BlockState::Ended(_) => None,
        }
    }

    /// Which request or reply a block's next instruction sends or needs; nothing where the block doesn't
    /// run. Takes constant time apart from finding the block.
    pub fn touched(&self, name: BlockName) -> Touched
        requires { IsWorldForSome self.now }
        ensures { TouchesAt self.now.store.values name ((tables_of self.now opening_book).blocks (block_of name)) result }
    {
        match self.table.state(name) {
            BlockState::Running => self.touched_on(name),
            BlockState::NotStarted => Touched::Nothing,
            BlockState::Ended(_) => Touched::Nothing,
        }
    }

    /// The block that waits for the reply to the request of this number, or for the result of the right
    /// arm, once its block is started. Takes constant time apart from finding the block.
    pub fn waiter(&self, number: u32) -> BlockName
        requires world { IsWorldForSome self.now }
        requires started { IsStarted ((tables_of self.now opening_book).blocks (of number)) }
        ensures { result ≡ waiting_for number self.now.program }
    {
        let index = self.program.index_of(BlockName::Of(number));
        name_at(&self.waiters, index)
    }

    /// The places between which requests go, in their order.
    pub fn places(&self) -> &[Place]
        ensures { result.now ≡ self.now.places.items }
    {
        &self.places
    }

    /// The number of the first request that waits at a place, given by its index; none exactly if none
    /// waits. Takes constant time.
    pub fn front(&self, place: u32) -> Option<u32>
        requires world { IsWorldForSome self.now }
        requires place { place < length self.now.places.items }
        ensures { (name : List ℕ) → IsPlace self.now.places.items name place →
            result ≡ first_number ((tables_of self.now opening_book).requests name) }
    {
        match self.mail.front(place) {
            None => None,
            Some(request) => Some(request.name),
        }
    }

    /// The session's result, which is that of the root block; none exactly while it isn't over.
    pub fn root_result(&self) -> Option<EvId>
        requires { IsWorldForSome self.now }
        ensures value { option_map (value_at self.now.store.values) result ≡ result_in ((tables_of self.now opening_book).blocks root) }
        ensures known { IfSome result (λ id. id < length self.now.store.values) }
    {
        self.table.join(BlockName::Root)
    }

    /// The bundle of evidence that a call answered. An error is want of memory. Takes time linear in its
    /// bytes.
    pub fn emit(&self, evidence: EvId) -> Result<Bytes, NoMemory>
        requires { evidence < length self.now.store.values }
        ensures { IfOk result (λ bytes. bytes ≡ bundle (value_at self.now.store.values evidence)) }
    {
        self.store.emit(evidence)
    }

    fn next_on(&self, name: BlockName) -> Ready
        requires world { IsWorldForSome self.now }
        requires running { state_of self.now.table name ≡ BlockState.Running }
        ensures { (book : Book) → next_in_tables (tables_of self.now book) (block_of name) ≡ next_by_book book result }
    {
        let index = self.program.index_of(name);
        let instr = instr_of(&self.program, &self.runners, index);
        ready_by(instr, &self.mail, &self.table)
    }

    fn ask_on(&self, name: BlockName, nonce: &[u8; 16]) -> Option<Ask>
        requires world { IsWorldForSome self.now }
        requires running { state_of self.now.table name ≡ BlockState.Running }
        ensures { result ≡ ask_of self.now.program nonce.now (tables_of self.now opening_book) (block_of name) }
    {
        let index = self.program.index_of(name);
        let instr = instr_of(&self.program, &self.runners, index);
        ask_for(instr, place_of(&self.program, index), nonce)
    }

    fn touched_on(&self, name: BlockName) -> Touched
        requires world { IsWorldForSome self.now }
        requires running { state_of self.now.table name ≡ BlockState.Running }
        ensures { TouchesAt self.now.store.values name ((tables_of self.now opening_book).blocks (block_of name)) result }
    {
        let index = self.program.index_of(name);
        let instr = instr_of(&self.program, &self.runners, index);
        touched_by(instr, name, self.remote_at(index), self.evidence_at(index))
    }

    fn evidence_at(&self, index: usize) -> EvId
        requires { index < length self.now.runners.items }
        ensures { result ≡ (runner_at self.now index).machine.evidence }
    {
        self.runners[index].machine.evidence()
    }

    fn answer_at(&mut self, index: usize, answer: &Answer) -> Result<(), NoMemory>
        requires within { index < length self.old.runners.items }
        requires stands { StandsForSome self.old.program (length self.old.store.values) (runner_at self.old index).machine }
        requires awaits { AwaitsAnswer (next_of self.old.program (runner_at self.old index).machine) }
        requires fits { let machine = (runner_at self.old index).machine in
            FitsBundle (measured (next_of self.old.program machine) answer.now (value_at self.old.store.values machine.evidence)) }
        ensures gives { let machine = (runner_at self.old index).machine in
            Gives (code_called self.old.program machine.name)
            (row_answered (next_of self.old.program machine) answer.now (local_of self.old.program self.old.store.values machine))
            machine self.old.store result (runner_at self.new index).machine self.new.store }
        ensures stands { StandsAgain self.old.program (length self.old.store.values) (runner_at self.old index).machine
            (length self.new.store.values) (runner_at self.new index).machine }
        ensures runners { self.new.runners ≡ with_item self.old.runners index (runner_at self.new index) }
        ensures remote { (runner_at self.new index).remote ≡ (runner_at self.old index).remote }
        ensures rest { self.new ≡ record self.old { store = self.new.store; runners = self.new.runners } }
    {
        self.runners[index]
            .machine
            .give_answer(&self.program, &mut self.store, answer)
    }

    fn step_at(&mut self, index: usize, keys: &KeyRing, nonce: &[u8; 16]) -> Stepped
        requires within { index < length self.old.runners.items }
        requires stands { Stands self.old.program keys.now (length self.old.store.values) (runner_at self.old index).machine }
        requires fits { let machine = (runner_at self.old index).machine in
            NewFits (setting_of self.old.program keys.now nonce.now machine.name) (next_of self.old.program machine)
            (local_of self.old.program self.old.store.values machine) }
        requires spare { let machine = (runner_at self.old index).machine in
            most_added (row (setting_of self.old.program keys.now nonce.now machine.name) (next_of self.old.program machine)
            (local_of self.old.program self.old.store.values machine)).0 ≤ self.old.store.spare }
        ensures steps { let machine = (runner_at self.old index).machine in
            Steps (setting_of self.old.program keys.now nonce.now machine.name) (code_called self.old.program machine.name)
            (next_of self.old.program machine) machine self.old.store (Ok result) (runner_at self.new index).machine self.new.store }
        ensures awaits { IsAwaited (deed_of self.new.store.values result) (next_of self.old.program (runner_at self.new index).machine) }
        ensures stands { Stands self.old.program keys.now (length self.new.store.values) (runner_at self.new index).machine }
        ensures remote { (runner_at self.new index).remote ≡ (runner_at self.old index).remote }
        ensures runners { self.new.runners ≡ with_item self.old.runners index (runner_at self.new index) }
        ensures rest { self.new ≡ record self.old { store = self.new.store; runners = self.new.runners } }
    {
        match self.runners[index]
            .machine
            .step(&self.program, &mut self.store, keys, nonce)
        {
            Ok(stepped) => stepped,
            Err(_) => unreachable!(),
        }
    }

    fn settle(&mut self, index: usize, name: BlockName, stepped: Stepped) -> Moved
        requires world { IsWorldForSome self.old }
        requires at { RunsAt self.old name index }
        requires can { CanSettle self.old (runner_at self.old index) stepped }
        requires room { HasRoomFor (requests_of stepped) 0 self.old }
        ensures moves { (book : Book) (pass : ℕ) → book.state ≡ is_open →
            settled_tables self.old name (runner_at self.old index) stepped pass book
            ≡ option_map (tables_of self.new) (book_after self.new.store.values name result book) }
        ensures waits { IfWaits result ((self.new ≡ self.old) × WaitsFor stepped) }
        ensures sends { IfSent result (SendsTo self.old self.new) }
        ensures settles { SettlesAs self.old.places.items stepped result }
        ensures world { IsWorldAgain self.old self.new }
        ensures room { HasRoom self.new }
        ensures program { self.new.program ≡ self.old.program }
        ensures places { self.new.places ≡ self.old.places }
    {
        match stepped {
            Stepped::Event(event) => Moved::Happened(event),
            Stepped::Silent => Moved::Silent,
            Stepped::Sent {
                name: event,
                place,
                evidence,
            } => self.send(event, place, evidence),
            Stepped::Forked {
                name: number,
                evidence,
            } => {
                self.begin(number, evidence, false);
                Moved::Forked(number)
            }
            Stepped::NeedsAnswer { .. } => Moved::Waits,
            Stepped::NeedsReply {
                event,
                name: number,
            } => self.take_reply(index, name, event, number),
            Stepped::NeedsChild {
                event,
                name: number,
            } => self.join(index, name, event, number),
            Stepped::Ended(result) => {
                self.finish(index, name, result);
                Moved::Ended(result)
            }
        }
    }

    /// A request goes to a place.
    fn send(&mut self, event: u32, place: Place, evidence: EvId) -> Moved
        requires world { IsWorldForSome self.old }
        requires there { HasBlock self.old.program (BlockName.Of event) }
        requires listed { IsListed self.old.places.items place }
        requires room { HasRoomFor 1 0 self.old }
        requires evidence { evidence < length self.old.store.values }
        ensures tables { (book : Book) → let tables = tables_of self.old book in
            tables_of self.new book ≡ record tables {
              requests =
                  put_place place (tables.requests place ++ (event, value_at self.old.store.values evidence) ∷ []) tables.requests;
            } }
        ensures moved { (index : ℕ) × (IsPlace self.old.places.items place index × (result ≡ Moved.Sent event index evidence)) }
        ensures world { IsWorldAgain self.old self.new }
        ensures room { HasRoom self.new }
        ensures rest { self.new ≡ record self.old { mail = self.new.mail } }
    {
        let at = index_of_place(&self.places, place);
        let request = Request {
            name: event,
            evidence,
        };
        match self.mail.post(at, request) {
            Ok(()) => Moved::Sent {
                event,
                place: at,
                evidence,
            },
            Err(_) => unreachable!(),
        }
    }

    /// The block of a number starts on this evidence.
    fn begin(&mut self, number: u32, evidence: EvId, remote: bool)
        requires world { IsWorldForSome self.old }
        requires there { HasBlock self.old.program (BlockName.Of number) }
        requires fresh { state_of self.old.table (BlockName.Of number) ≡ BlockState.NotStarted }
        requires evidence { evidence < length self.old.store.values }
        requires room { HasRoom self.old }
        ensures tables { (book : Book) →
            tables_of self.new book ≡ with_cell (of number)
            (running remote (started self.old.program (of number) (value_at self.old.store.values evidence))) (tables_of self.old book) }
        ensures world { IsWorldAgain self.old self.new }
        ensures room { HasRoom self.new }
        ensures rest { self.new ≡ record self.old { table = self.new.table; runners = self.new.runners } }
    {
        let index = self.program.index_of(BlockName::Of(number));
        let machine = Machine::start(BlockName::Of(number), evidence);
        self.runners[index] = Runner { machine, remote };
        self.table.start(BlockName::Of(number));
    }

    /// The reply to a request goes to the machine that waits for it, if it is there.
    fn take_reply(&mut self, index: usize, name: BlockName, event: u32, number: u32) -> Moved
        requires world { IsWorldForSome self.old }
        requires at { RunsAt self.old name index }
        requires awaits { AwaitsReply (next_of self.old.program (runner_at self.old index).machine) }
        requires room { HasRoom self.old }
        ensures moves { (book : Book) (pass : ℕ) → book.state ≡ is_open →
            settled_tables self.old name (runner_at self.old index) (Stepped.NeedsReply event number) pass book
            ≡ option_map (tables_of self.new) (book_after self.new.store.values name result book) }
        ensures waits { IfWaits result (self.new ≡ self.old) }
        ensures settles { IfMoves result (result ≡ Moved.Happened event) }
        ensures sends { IfSent result (SendsTo self.old self.new) }
        ensures world { IsWorldAgain self.old self.new }
        ensures room { HasRoom self.new }
        ensures program { self.new.program ≡ self.old.program }
        ensures places { self.new.places ≡ self.old.places }
    {
        match self.mail.take_reply(number) {
            None => Moved::Waits,
            Some(reply) => {
                self.runners[index].machine.give_reply(&self.program, reply);
                Moved::Happened(event)
            }
        }
    }

    /// The result of a block goes to the machine that waits for it, if the block is over.
    fn join(&mut self, index: usize, name: BlockName, event: u32, number: u32) -> Moved
        requires world { IsWorldForSome self.old }
        requires at { RunsAt self.old name index }
        requires can { CanSettle self.old (runner_at self.old index) (Stepped.NeedsChild event number) }
        requires room { HasRoom self.old }
        ensures moves { (book : Book) (pass : ℕ) → book.state ≡ is_open →
            settled_tables self.old name (runner_at self.old index) (Stepped.NeedsChild event number) pass book
            ≡ option_map (tables_of self.new) (book_after self.new.store.values name result book) }
        ensures waits { IfWaits result (self.new ≡ self.old) }
        ensures settles { IfMoves result (result ≡ Moved.Happened event) }
        ensures sends { IfSent result (SendsTo self.old self.new) }
        ensures world { IsWorldAgain self.old self.new }
        ensures room { HasRoom self.new }
        ensures program { self.new.program ≡ self.old.program }
        ensures places { self.new.places ≡ self.old.places }
    {
        match self.table.join(BlockName::Of(number)) {
            None => Moved::Waits,
            Some(child) => {
                match self.runners[index]
                    .machine
                    .give_child(&self.program, &mut self.store, child)
                {
                    Ok(()) => Moved::Happened(event),
                    Err(_) => unreachable!(),
                }
            }
        }
    }

    /// A block is over; its result is the reply, where it runs a request.
    fn finish(&mut self, index: usize, name: BlockName, evidence: EvId)
        requires world { IsWorldForSome self.old }
        requires at { RunsAt self.old name index }
        requires room { HasRoom self.old }
        requires evidence { evidence < length self.old.store.values }
        ensures tables { (book : Book) →
            tables_of self.new book ≡ record (after_end (block_of name) (runner_at self.old index).remote
            (value_at self.old.store.values evidence) (tables_of self.old book)) { state = book.state } }
        ensures world { IsWorldAgain self.old self.new }
        ensures room { HasRoom self.new }
        ensures rest { self.new ≡ record self.old { table = self.new.table; mail = self.new.mail } }
    {
        let remote = self.remote_at(index);
        self.close(name, evidence);
        match name {
            BlockName::Root => {}
            BlockName::Of(number) => self.reply_if(remote, number, evidence),
        }
    }

    fn remote_at(&self, index: usize) -> bool
        requires { index < length self.now.runners.items }
        ensures { result ≡ (runner_at self.now index).remote }
    {
        self.runners[index].remote
    }

    fn close(&mut self, name: BlockName, evidence: EvId)
        requires world { IsWorldForSome self.old }
        requires running { state_of self.old.table name ≡ BlockState.Running }
        requires evidence { evidence < length self.old.store.values }
        requires room { HasRoom self.old }
        ensures tables { (book : Book) →
            tables_of self.new book ≡ with_cell (block_of name) (over (value_at self.old.store.values evidence)) (tables_of self.old book) }
        ensures state { state_of self.new.table name ≡ BlockState.Ended evidence }
        ensures world { IsWorldAgain self.old self.new }
        ensures room { HasRoomFor 0 (replies_of name) self.new }
        ensures rest { self.new ≡ record self.old { table = self.new.table } }
    {
        self.table.end(name, evidence);
    }

    fn reply_if(&mut self, remote: bool, number: u32, evidence: EvId)
        requires world { IsWorldForSome self.old }
        requires ended { state_of self.old.table (BlockName.Of number) ≡ BlockState.Ended evidence }
        requires free { find number self.old.mail.answers ≡ None }
        requires room { HasRoomFor 0 1 self.old }
        requires evidence { evidence < length self.old.store.values }
        ensures tables { (book : Book) → let tables = tables_of self.old book in
            tables_of self.new book ≡ (if remote then record tables {
              replies =
                  put_reply number (Some (value_at self.old.store.values evidence)) tables.replies;
            } else tables) }
        ensures world { IsWorldAgain self.old self.new }
        ensures room { HasRoom self.new }
        ensures rest { self.new ≡ record self.old { mail = self.new.mail } }
    {
        if remote {
            self.reply(number, evidence);
        }
    }

    fn reply(&mut self, number: u32, evidence: EvId)
        requires world { IsWorldForSome self.old }
        requires ended { state_of self.old.table (BlockName.Of number) ≡ BlockState.Ended evidence }
        requires free { find number self.old.mail.answers ≡ None }
        requires room { HasRoomFor 0 1 self.old }
        requires evidence { evidence < length self.old.store.values }
        ensures tables { (book : Book) → let tables = tables_of self.old book in
            tables_of self.new book ≡ record tables {
              replies =
                  put_reply number (Some (value_at self.old.store.values evidence)) tables.replies;
            } }
        ensures world { IsWorldAgain self.old self.new }
        ensures room { HasRoom self.new }
        ensures rest { self.new ≡ record self.old { mail = self.new.mail } }
    {
        match self.mail.answer(number, evidence) {
            Ok(()) => {}
            Err(_) => unreachable!(),
        }
    }
}
