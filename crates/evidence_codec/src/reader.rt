ghost use Rattle.std.specs.Prelude.{◌≡◌, ◌+◌, ◌<◌, ◌≤◌, ℕ, List, [], ◌∷◌, ◌++◌, length, nat_eq, if◌then◌else◌, Bool, true, false, Result, Err, IfSome, ◌-◌};
ghost use Rattle.std.specs.Int.{from_be_bytes, w32};
ghost use Rattle.evidence_types.specs.Heads as heads_of;
ghost use Rattle.evidence_types.specs.Heads.{IsHead, head_of};
ghost use Rattle.evidence_codec.specs.Reading.{fault, head_at, read_bundle, version_of};
ghost use Rattle.evidence_codec.specs.Decoding.{given, held_of, scan_of, standing, Shows, Gives};
ghost use Rattle.evidence_codec.specs.Scanning.{behind_head, choosing, ending, failed, inside, sized, sizing, step};
ghost use Rattle.evidence_codec.specs.Scanned.{IsEmpty, IsInside, IsReader, IsSized, Scanned};

use crate::encoding::FIRST_BYTES;
use crate::fault::{BadKind, Fault, Stop};
use crate::head::{head_at, parts_at};
use crate::version::Version;
use crate::waits::Waits;
use arrayvec::ArrayVec;
use evidence_types::{Head, VALUE_NESTING};

/// What a reader wants next.
#[derive(Clone, Copy, Debug)]
pub enum Stage {
    /// The first byte.
    First,
    Second,
    Third,
    Fourth,
    /// The byte of the version.
    Choosing,
    /// Bytes of the length.
    Sizing,
    /// A byte of the value: where the next head starts, and how many of the value's bytes come behind it.
    Inside(u32, u32),
    /// Nothing: the bundle ends at this offset.
    Whole(u32),
    /// Nothing: this is the first fault.
    Failed(Fault),
}

/// Reads a bundle that comes byte by byte: `take` gives it the next one, `head` is the head that this byte
/// ended, and `finish` says whether the bytes were a bundle, or names the first fault. So the heads
/// come in their order while the bytes do, however they are cut, and the fault comes at the end.
///
/// It takes no memory: the bytes of one head, at most 1,032, and a number for each open node, at most
/// 1,025, lie in it.
#[derive(Debug, Drop)]
pub struct Reader {
    either: bool,
    version: Version,
    stage: Stage,
    nodes: Waits,
    held: ArrayVec<u8, 1032>,
    has_head: bool,
}

fn short(at: u32) -> Fault
    ensures { result ≡ fault at BadKind.Short }
{
    Fault {
        at,
        kind: BadKind::Short,
    }
}

fn rest(at: u32) -> Fault
    ensures { result ≡ fault at BadKind.Rest }
{
    Fault {
        at,
        kind: BadKind::Rest,
    }
}

fn behind_byte(wanted: u8, at: u32, byte: u8, next: Stage) -> Stage
    ensures { result ≡ (if nat_eq byte wanted then next else Stage.Failed (fault at BadKind.Tag)) }
{
    if byte == wanted {
        return next;
    }
    Stage::Failed(Fault {
        at,
        kind: BadKind::Tag,
    })
}

#[tactic(auto, unfolding(crate::specs::Reading::version_of))]
fn version_of(either: bool, byte: u8) -> Result<Version, Fault>
    ensures { Gives (λ version. version) result (version_of either byte) }
{
    if byte == Version::Plain.byte() {
        return Ok(Version::Plain);
    }
    if byte == Version::Marked.byte() && either {
        return Ok(Version::Marked);
    }
    Err(Fault {
        at: 4,
        kind: BadKind::Tag,
    })
}

/// The length in these four bytes.
fn length_in(bytes: &[u8]) -> u32
    requires { length bytes.now ≡ 4 }
    ensures { result ≡ from_be_bytes w32 bytes.now }
{
    let Some((front, _)) = bytes.split_first_chunk::<4>() else {
        unreachable!()
    };
    u32::from_be_bytes(*front)
}

fn sized(version: Version, len: u32) -> Stage
    ensures { standing result version [] [] ≡ sized version len }
{
    if len > version.most() {
        return Stage::Failed(Fault {
            at: 5,
            kind: BadKind::Length,
        });
    }
    if len == 0 {
        return Stage::Failed(Fault {
            at: 9,
            kind: BadKind::Length,
        });
    }
    Stage::Inside(9, len - 1)
}

/// What is wanted behind a head that ends at this offset, with so many of the value's bytes to come.
fn behind_head(at: u32, left: u32, nodes: &Waits) -> Stage
    ensures { (version : Version) → standing result version nodes.now [] ≡ behind_head version at left nodes.now }
{
    let is_read = nodes.depth() == 0;
    if is_read && left == 0 {
        return Stage::Whole(at);
    }
    if is_read || left == 0 {
        return Stage::Failed(Fault {
            at,
            kind: BadKind::Length,
        });
    }
    Stage::Inside(at, left - 1)
}

impl Reader {
    /// A reader of version 1, or of either version.
    pub fn open(either: bool) -> Reader
        ensures ready { IsReader result }
        ensures scanned { Scanned either [] [] result }
    {
        Reader {
            either,
            version: Version::Plain,
            stage: Stage::First,
            nodes: Waits::none(),
            held: ArrayVec::new(),
            has_head: false,
        }
    }

    /// Lets go of the head that the last byte ended.
    fn forget(&mut self)
        requires { IsReader self.old }
        ensures ready { IsReader self.new }
        ensures no_head { self.new.has_head ≡ false }
        ensures scan { scan_of self.new ≡ scan_of self.old }
        ensures stage { self.new.stage ≡ self.old.stage }
        ensures either { self.new.either ≡ self.old.either }
    {
        if self.has_head {
            self.held.clear();
            self.has_head = false;
        }
    }

    #[tactic(auto, unfolding(crate::specs::Scanning::step))]
    fn choose(&mut self, byte: u8)
        requires { IsEmpty self.old.has_head self.old.nodes self.old.held.items }
        ensures stepped { step self.old.either choosing byte ≡ ([], scan_of self.new) }
        ensures empty { IsEmpty self.new.has_head self.new.nodes self.new.held.items }
        ensures either { self.new.either ≡ self.old.either }
    {
        match version_of(self.either, byte) {
            Ok(version) => {
                self.version = version;
                self.stage = Stage::Sizing;
            }
            Err(first) => self.stage = Stage::Failed(first),
        }
    }

    #[tactic(auto, unfolding(crate::specs::Scanning::step))]
    fn size(&mut self, byte: u8)
        requires sized { IsSized self.old.has_head self.old.nodes }
        requires few { length self.old.held.items < 4 }
        ensures stepped { step self.old.either (sizing self.old.version self.old.held.items) byte ≡ ([], scan_of self.new) }
        ensures keeps { IsSized self.new.has_head self.new.nodes }
        ensures either { self.new.either ≡ self.old.either }
    {
        self.held.push(byte);
        if self.held.len() < 4 {
            self.stage = Stage::Sizing;
            return;
        }
        let len = length_in(&self.held);
        self.held.clear();
        self.stage = sized(self.version, len);
    }

    /// A byte of the value, where the next head starts at this offset and so many of the value's bytes come
    /// behind the byte.
    #[tactic(auto, unfolding(crate::specs::Scanning::step))]
    fn enter(&mut self, at: u32, left: u32, byte: u8)
        requires inside { IsInside self.old.version at left self.old.nodes self.old.held.items }
        requires room { length self.old.held.items < 1032 }
        requires no_head { self.old.has_head ≡ false }
        ensures stepped { step self.old.either (inside self.old.version at left self.old.nodes self.old.held.items) byte ≡ (given self.new, scan_of self.new) }
        ensures either { self.new.either ≡ self.old.either }
    {
        if self.nodes.depth() >= VALUE_NESTING as usize {
            self.stage = Stage::Failed(Fault {
                at,
                kind: BadKind::Deep,
            });
            return;
        }
        self.held.push(byte);
        match parts_at(self.version, &self.held) {
            Ok(parts) => {
                self.nodes.open(parts);
                self.has_head = true;
                self.stage = behind_head(at + self.held.len() as u32, left, &self.nodes);
            }
            Err(Stop::Wanting) => self.want(at, left),
            Err(Stop::Faulty(index, kind)) => {
                self.stage = Stage::Failed(Fault {
                    at: at + index,
                    kind,
                });
            }
        }
    }

    /// The head that starts at this offset wants one more byte, and so many of the value's come.
    fn want(&mut self, at: u32, left: u32)
        requires { at + length self.old.held.items < 300000 }
        ensures scan { scan_of self.new ≡ (if nat_eq left 0 then failed (fault (at + length self.old.held.items) BadKind.Length) else standing (Stage.Inside at (left - 1)) self.old.version self.old.nodes (held_of self.old.has_head self.old.held.items)) }
        ensures has_head { self.new.has_head ≡ self.old.has_head }
        ensures either { self.new.either ≡ self.old.either }
    {
        if left == 0 {
            self.stage = Stage::Failed(Fault {
                at: at + self.held.len() as u32,
                kind: BadKind::Length,
            });
            return;
        }
        self.stage = Stage::Inside(at, left - 1);
    }

    #[tactic(auto, unfolding(crate::specs::Scanning::step))]
    fn step(&mut self, byte: u8)
        requires ready { IsReader self.old }
        requires no_head { self.old.has_head ≡ false }
        ensures stepped { step self.old.either (scan_of self.old) byte ≡ (given self.new, scan_of self.new) }
        ensures ready { IsReader self.new }
        ensures either { self.new.either ≡ self.old.either }
    {
        let stage = self.stage;
        match stage {
            Stage::First => self.stage = behind_byte(FIRST_BYTES[0], 0, byte, Stage::Second),
            Stage::Second => self.stage = behind_byte(FIRST_BYTES[1], 1, byte, Stage::Third),
            Stage::Third => self.stage = behind_byte(FIRST_BYTES[2], 2, byte, Stage::Fourth),
            Stage::Fourth => self.stage = behind_byte(FIRST_BYTES[3], 3, byte, Stage::Choosing),
            Stage::Choosing => self.choose(byte),
            Stage::Sizing => self.size(byte),
            Stage::Inside(at, left) => self.enter(at, left, byte),
            Stage::Whole(at) => self.stage = Stage::Failed(rest(at)),
            Stage::Failed(_) => {}
        }
    }

    /// Takes the next byte of the bundle.
    pub fn take(&mut self, byte: u8)
        requires { IsReader self.old }
        ensures ready { IsReader self.new }
        ensures scanned { (either : Bool) (bytes : List ℕ) (heads : List heads_of.Head) →
            Scanned either bytes heads self.old → Scanned either (bytes ++ byte ∷ []) (heads ++ given self.new) self.new }
    {
        self.forget();
        self.step(byte);
    }

    /// The head that the last byte ended, if it ended one.
    pub fn head(&self) -> Option<Head<'_>>
        ensures head { Shows result (given self.now) }
        ensures well_formed { IfSome result (λ head. IsHead (head_of head)) }
    {
        if !self.has_head {
            return None;
        }
        match head_at(self.version, &self.held) {
            Ok((head, _)) => Some(head),
            Err(_) => None,
        }
    }

    /// What the bytes were that it took: a bundle of this version, or no bundle, with the first fault.
    pub fn finish(&self) -> Result<Version, Fault>
        requires { IsReader self.now }
        ensures { (either : Bool) (bytes : List ℕ) (heads : List heads_of.Head) →
            Scanned either bytes heads self.now → Gives (λ version. (version, heads)) result (read_bundle either bytes) }
    {
        self.ending()
    }

    fn ending(&self) -> Result<Version, Fault>
        requires { IsReader self.now }
        ensures { Gives (λ version. version) result (ending (scan_of self.now)) }
    {
        match self.stage {
            Stage::First => Err(short(0)),
            Stage::Second => Err(short(1)),
            Stage::Third => Err(short(2)),
            Stage::Fourth => Err(short(3)),
            Stage::Choosing => Err(short(4)),
            Stage::Sizing => Err(short(5 + self.held.len() as u32)),
            Stage::Inside(at, _) => Err(short(at + self.there() as u32)),
            Stage::Whole(_) => Ok(self.version),
            Stage::Failed(first) => Err(first),
        }
    }

    /// How many bytes are there of a head that is not whole.
    fn there(&self) -> usize
        ensures { result ≡ length (held_of self.now.has_head self.now.held.items) }
    {
        if self.has_head {
            return 0;
        }
        self.held.len()
    }
}
