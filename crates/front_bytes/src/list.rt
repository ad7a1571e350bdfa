ghost use Rattle.std.specs.Prelude.{◌≡◌, ◌≤◌, ℕ, List, [], ◌++◌, drop, length, OnOk, OnErr, IfOk};

use crate::writing::{with_room, write_ahead};
use phrase_tree::NoMemory;
use std::alloc::Global;
use std::marker::Model;

/// A list of bytes that grows at its front. The bytes lie at the end of one block of memory, which is at
/// most some twice as large as the list ever was, and moves when it grows.
#[derive(Debug, Drop)]
pub struct FrontBytes {
    bytes: Vec<u8>,
    start: usize,
}

impl Model for FrontBytes {
    ghost use Rattle.std.specs.Prelude.{◌≤◌, ℕ, List, drop, length};

    ghost Value = { List ℕ };

    ghost view = { λ list. drop list.start list.bytes.items };

    ghost invariant = { λ list. list.start ≤ length list.bytes.items };
}

impl FrontBytes {
    /// No bytes. Takes no memory yet.
    pub fn new(alloc: Global) -> FrontBytes
        ensures { result ≡ [] }
    {
        FrontBytes {
            bytes: Vec::new(alloc),
            start: 0,
        }
    }

    /// No bytes, behind room for so many, so that putting these ahead takes no memory. An error is want of
    /// memory. Costs a zero written for each byte of the room.
    pub fn with_room(alloc: Global, room: usize) -> Result<FrontBytes, NoMemory>
        ensures { IfOk result (λ list. list ≡ []) }
    {
        let mut bytes = Vec::with_capacity(alloc, room)?;
        bytes.resize(room, 0)?;
        Ok(FrontBytes { bytes, start: room })
    }

    /// The number of the bytes, which is the mark of the place ahead of them.
    pub fn len(&self) -> usize
        ensures { result ≡ length self.now }
    {
        self.bytes.len() - self.start
    }

    pub fn bytes(&self) -> &[u8]
        ensures { result.now ≡ self.now }
    {
        &self.bytes[self.start..]
    }

    /// Puts a piece ahead of the bytes. After an error, which is want of memory, they are as they were.
    pub fn put_ahead(&mut self, piece: &[u8]) -> Result<(), NoMemory>
        ensures ok { OnOk result (self.new ≡ piece.now ++ self.old) }
        ensures err { OnErr result (self.new ≡ self.old) }
    {
        if piece.len() <= self.start {
            self.start = write_ahead(&mut self.bytes, self.start, piece);
            return Ok(());
        }
        let alloc = *self.bytes.allocator();
        let (mut bytes, start) = match with_room(alloc, self.bytes(), piece.len()) {
            Ok(made) => made,
            Err(_) => return Err(NoMemory),
        };
        let start = write_ahead(&mut bytes, start, piece);
        *self = FrontBytes { bytes, start };
        Ok(())
    }

    /// The bytes ahead of a mark.
    pub fn since(&self, mark: usize) -> &[u8]
        requires { mark ≤ length self.now }
        ensures { (top under : List ℕ) → self.now ≡ top ++ under → mark ≡ length under → result.now ≡ top }
    {
        &self.bytes[self.start..self.bytes.len() - mark]
    }

    /// Takes away the bytes ahead of a mark.
    pub fn reset(&mut self, mark: usize)
        requires { mark ≤ length self.old }
        ensures { (top under : List ℕ) → self.old ≡ top ++ under → mark ≡ length under → self.new ≡ under }
    {
        let count = self.len() - mark;
        self.forget(count);
    }

    /// Takes away so many bytes from the front.
    fn forget(&mut self, count: usize)
        requires { count ≤ length self.old }
        ensures { self.new ≡ drop count self.old }
    {
        self.start += count;
    }
}
