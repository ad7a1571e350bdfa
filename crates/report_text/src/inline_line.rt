ghost use Rattle.std.specs.Prelude.{◌≡◌, ◌+◌, ◌≤◌, ◌++◌, [], decimal, length};

use arrayvec::ArrayVec;
use itoa::Buffer;
use std::marker::Model;

/// One line of at most 256 bytes, which lie in the value itself.
#[derive(Debug, Drop)]
pub struct Line {
    bytes: ArrayVec<u8, 256>,
}

impl Model for Line {
    ghost use Rattle.std.specs.Prelude.{ℕ, List, ◌≤◌, length};

    ghost Value = { List ℕ };

    ghost view = { λ line. line.bytes.items };

    ghost invariant = { λ line. length line.bytes.items ≤ 256 };

    ghost inverse = { λ bytes. record { bytes = record { items = bytes } } };
}

impl Line {
    pub fn bytes(&self) -> &[u8]
        ensures { result.now ≡ self.now }
    {
        &self.bytes
    }

    /// A line with this text, for which there is room.
    pub fn of(text: &[u8]) -> Line
        requires { length text.now ≤ 256 }
        ensures { result ≡ text.now }
    {
        let mut line = Line {
            bytes: ArrayVec::new(),
        };
        line.push(text);
        line
    }

    /// Appends a piece, for which there is room.
    pub fn push(&mut self, piece: &[u8])
        requires { length self.old + length piece.now ≤ 256 }
        ensures { self.new ≡ self.old ++ piece.now }
    {
        self.bytes.try_extend_from_slice(piece).unwrap();
    }

    /// Appends a number in decimal, for which there is room.
    pub fn push_number(&mut self, number: u32)
        requires { length self.old + 10 ≤ 256 }
        ensures text { self.new ≡ self.old ++ decimal number }
        ensures few { length self.new ≤ length self.old + 10 }
    {
        self.push(Buffer::new().format(number).as_bytes());
    }
}
