ghost use Rattle.std.specs.Prelude.{◌≡◌, ◌+◌, ◌<◌, ◌≤◌, ◌^◌, ◌↔◌, ◌++◌, ℕ, [], length, drop, Ok, Err, OnOk, OnErr};

use crate::frame::Frame;
use crate::front::{Front, front_of};
use crate::parsing::frame_in;
use phrase_tree::NoMemory;
use std::alloc::Global;
use std::marker::Model;

/// What comes next of the bytes that a reader was fed.
#[derive(Debug, Drop)]
pub enum NextFrame {
    /// A frame, which the reader has given.
    Whole(Frame),
    /// More bytes are wanted before the next frame is whole.
    More,
}

/// Why a reader gives no frame.
#[derive(Clone, Copy, Debug, PartialEq, Eq)]
pub enum FrameError {
    /// In the place of a frame stand bytes of none. `at` is the offset, in all bytes that the reader was fed, of
    /// the first byte of a length out of its limits, or of the byte of another kind.
    BadFrame { at: u64 },
    NoMemory,
}

/// Gives the frames in bytes that come in pieces. Each byte that is fed is kept once, until its frame is
/// given; it is moved to the front of its block of memory only when no fewer bytes were given before it, so all
/// moves together cost time linear in the bytes.
#[derive(Debug, Drop)]
pub struct FrameReader {
    bytes: Vec<u8>,
    start: usize,
    at: u64,
}

impl Model for FrameReader {
    ghost use Rattle.std.specs.Prelude.{◌+◌, ◌<◌, ◌≤◌, ◌^◌, length, drop};
    ghost use Rattle.wire_frames.specs.Standing.{Reading};

    ghost Value = { Reading };

    ghost view = { λ r. record { at = r.at; rest = drop r.start r.bytes.items } };

    ghost invariant = { λ r. (r.start ≤ length r.bytes.items) × (r.at + length (drop r.start r.bytes.items) < 2 ^ 64) };
}

impl FrameReader {
    ghost use Rattle.wire_frames.specs.Reading.{IsBadAt, IsPart, Gives, Reads};
    ghost use Rattle.wire_frames.specs.Front.{IsWhole};

    /// A reader that was fed nothing. Takes no memory yet.
    pub fn open(alloc: Global) -> FrameReader
        ensures { result ≡ record { at = 0; rest = [] } }
    {
        FrameReader {
            bytes: Vec::new(alloc),
            start: 0,
            at: 0,
        }
    }

    /// Takes the next piece. An error is want of memory, or that there would be 2^64 bytes in all; then the
    /// reader is as it was.
    pub fn feed(&mut self, piece: &[u8]) -> Result<(), NoMemory>
        ensures ok { OnOk result (self.new ≡ record { at = self.old.at; rest = self.old.rest ++ piece.now }) }
        ensures err { OnErr result (self.new ≡ self.old) }
    {
        let held = self.bytes.len() - self.start;
        let fed = self.at + held as u64;
        if u64::MAX - fed < piece.len() as u64 {
            return Err(NoMemory);
        }
        if held <= self.start {
            remove_front(&mut self.bytes, self.start);
            self.start = 0;
        }
        match self.bytes.extend_from_slice(piece) {
            Ok(()) => Ok(()),
            Err(_) => Err(NoMemory),
        }
    }

    /// The next frame, if its bytes are there. After an error, and where more bytes are wanted, the reader is
    /// as it was; so once a frame is bad each later call answers the same, whatever is fed. Takes time linear in
    /// the bundle of the frame that it gives.
    pub fn next(&mut self) -> Result<NextFrame, FrameError>
        ensures reads { Reads self.old result self.new }
        ensures more { (result ≡ Ok NextFrame.More) ↔ IsPart self.old.rest }
        ensures bad { (at : ℕ) → (result ≡ Err (FrameError.BadFrame at)) ↔ IsBadAt self.old at }
    {
        match front_of(self.rest()) {
            Front::Part => Ok(NextFrame::More),
            Front::BadLength => Err(FrameError::BadFrame { at: self.at }),
            Front::BadKind => Err(FrameError::BadFrame { at: self.at + 4 }),
            Front::Whole(size) => self.take(size),
        }
    }

    /// The bytes that were fed and not given yet.
    fn rest(&self) -> &[u8]
        ensures { result.now ≡ self.now.rest }
    {
        &self.bytes[self.start..]
    }

    /// Gives the frame of so many bytes at the front.
    fn take(&mut self, size: usize) -> Result<NextFrame, FrameError>
        requires { IsWhole self.old.rest size }
        ensures { Gives self.old result self.new }
    {
        let alloc = *self.bytes.allocator();
        match frame_in(alloc, &self.rest()[..size]) {
            Ok(frame) => {
                self.forget(size);
                Ok(NextFrame::Whole(frame))
            }
            Err(_) => Err(FrameError::NoMemory),
        }
    }

    /// Takes so many bytes from the front.
    fn forget(&mut self, count: usize)
        requires { count ≤ length self.old.rest }
        ensures { self.new ≡ record { at = self.old.at + count; rest = drop count self.old.rest } }
    {
        self.start += count;
        self.at += count as u64;
    }
}

/// Takes so many bytes from the front.
fn remove_front(bytes: &mut Vec<u8>, count: usize)
    requires { count ≤ length bytes.old.items }
    ensures { bytes.new.items ≡ drop count bytes.old.items }
{
    let len = bytes.len();
    bytes.copy_within(count..len, 0);
    bytes.truncate(len - count);
}
