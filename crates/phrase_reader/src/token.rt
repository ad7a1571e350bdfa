ghost use Rattle.std.specs.Prelude.{◌≡◌};
ghost use Rattle.phrase_reader.specs.Refusal.{token_events};

use phrase_tree::{Arg, Split};

/// A leaf that takes no name.
#[derive(Clone, Copy, Debug, PartialEq, Eq)]
pub enum Leaf {
    Cpy,
    Sig,
    Hsh,
    Nul,
}

/// The operator of a branch.
#[derive(Clone, Copy, Debug, PartialEq, Eq)]
pub struct Op {
    pub parallel: bool,
    pub split: Split,
}

/// A token of the text of a phrase.
#[derive(Clone, Copy, Debug, PartialEq, Eq)]
pub enum Token {
    Leaf(Leaf),
    Usm,
    Kim,
    At,
    OpenRound,
    CloseRound,
    OpenSquare,
    CloseSquare,
    Arrow,
    Op(Op),
    /// A name or a decimal.
    Value(Arg),
}

impl Token {
    /// How many events it counts.
    pub fn events(&self) -> u32
        ensures { result ≡ token_events self.now }
    {
        match self {
            Token::Leaf(_) | Token::Usm | Token::Kim => 1,
            Token::At | Token::Op(_) => 2,
            Token::OpenRound
            | Token::CloseRound
            | Token::OpenSquare
            | Token::CloseSquare
            | Token::Arrow
            | Token::Value(_) => 0,
        }
    }
}
