ghost use Rattle.std.specs.Prelude.{◌≡◌};
ghost use Rattle.phrase_tree.specs.Term.{term};
ghost use Rattle.place_check.specs.Session.{IsBounded};

use phrase_tree::{Phrase, Place};
use std::marker::Model;

/// A session that was checked: its phrase has at most 2,048 events and 64 open brackets, and the weight
/// of its evidence is nowhere over the limit.
#[derive(Debug, Drop)]
pub struct Checked {
    root: Place,
    nonce: [u8; 16],
    phrase: Phrase,
}

impl Model for Checked {
    ghost use Rattle.std.specs.Coded.{codes};
    ghost use Rattle.phrase_tree.specs.contracts.phrase.Phrase as trees;
    ghost use Rattle.phrase_tree.specs.Term.{term};
    ghost use Rattle.place_check.specs.Session.{CheckedSession, IsBounded};

    ghost Value = { CheckedSession };

    ghost coded = { Prim.hlevel (codes, trees.the_row.coded) };

    ghost view = { λ checked. record { root = checked.root; nonce = checked.nonce; phrase = checked.phrase } };

    ghost invariant = { λ checked. IsBounded (term checked.phrase) };
}

impl Checked {
    /// The session of this root, nonce and phrase.
    pub(crate) fn of(root: Place, nonce: [u8; 16], phrase: Phrase) -> Checked
        requires { IsBounded (term phrase) }
        ensures { result ≡ record { root = root; nonce = nonce; phrase = phrase } }
    {
        Checked {
            root,
            nonce,
            phrase,
        }
    }

    /// The place at which the session's phrase runs.
    pub fn root(&self) -> Place
        ensures { result ≡ self.now.root }
    {
        self.root
    }

    pub fn nonce(&self) -> &[u8; 16]
        ensures { result.now ≡ self.now.nonce }
    {
        &self.nonce
    }

    pub fn phrase(&self) -> &Phrase
        ensures phrase { result.now ≡ self.now.phrase }
        ensures bounded { IsBounded (term self.now.phrase) }
    {
        &self.phrase
    }
}
