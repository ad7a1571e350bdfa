ghost use Rattle.std.specs.Prelude.{◌≤◌, length};
ghost use Rattle.phrase_reader.specs.declared.reader.TheConstants.{TEXT_BYTES};
ghost use Rattle.phrase_reader.specs.Reading.{Finds};

use crate::lexeme::{Lexeme, blanks, front};
use crate::refusal::Kind;
use crate::token::Token;

/// What is found in a text from an offset on, after any blanks.
#[derive(Clone, Copy, Debug, PartialEq, Eq)]
pub enum Piece {
    /// A token, the offset where it begins, and the offset after it.
    Token(Token, usize, usize),
    /// A byte or a word that is refused, with its offset.
    Refused(Kind, usize),
    /// The end, with its offset.
    End(usize),
}

/// What is found from an offset on. Its time is linear in the bytes that it passes over.
pub fn find(text: &[u8], offset: usize) -> Piece
    requires small { length text.now ≤ TEXT_BYTES }
    requires inside { offset ≤ length text.now }
    ensures { Finds text.now offset result }
{
    let (_, rest) = text.split_at(offset);
    let blanks = blanks(rest);
    let (_, unread) = rest.split_at(blanks);
    let start = offset + blanks;
    match front(unread) {
        Lexeme::Read(token, len) => Piece::Token(token, start, start + len),
        Lexeme::Refused(kind, past) => Piece::Refused(kind, start + past),
        Lexeme::End => Piece::End(start),
    }
}
