ghost use Rattle.std.specs.Prelude.{◌≡◌, ◌≤◌, ◌-◌, ◌++◌, nat_eq, length, replicate, Some, refl};
ghost use Rattle.std.specs.List.{list_all};
ghost use Rattle.std.specs.Option.{SomeIff};
ghost use Rattle.std.specs.Ordering.{nat_cmp};
ghost use Rattle.std.specs.Cmp.{partial_equiv_from_equiv};
ghost use Rattle.std.specs.Cmp.Lexicographic.{pointwise, slice_cmp, nat_list_eq_equiv, nat_list_cmp_total, texts_po, texts_ties};
ghost use Rattle.phrase_tree.specs.Name.{IsName, is_name, is_name_byte};

use std::cmp::Ordering;
use std::marker::Model;

/// The greatest length of a name, in bytes.
pub const NAME_BYTES: usize = 32;

/// A name of 1 to 32 bytes: a small letter, then small letters, digits and underscores.
#[derive(Clone, Copy, Debug)]
pub struct Name {
    padded: [u8; 32],
    len: u8,
}

/// A place at which phrases run, by its name.
pub type Place = Name;

impl Model for Name {
    ghost use Rattle.std.specs.Prelude.{ℕ, List, ◌++◌, ◌-◌, length, replicate, take};
    ghost use Rattle.phrase_tree.specs.Name.{IsPaddedName, padded_again, length_again};

    ghost Value = { List ℕ };

    ghost view = { λ name. take name.len name.padded };

    ghost invariant = { λ name. IsPaddedName name.len name.padded };

    ghost inverse = { λ text. record { padded = text ++ replicate (32 - length text) 0; len = length text } };

    ghost inverse_ok = { λ name h i. record {
      padded = padded_again name.len name.padded h i;
      len = length_again name.len name.padded h i;
    } };
}

fn is_name_byte(byte: u8) -> bool
    ensures { result ≡ is_name_byte byte }
{
    byte.is_ascii_lowercase() || byte.is_ascii_digit() || byte == b'_'
}

fn may_follow(rest: &[u8]) -> bool
    ensures { result ≡ list_all is_name_byte rest.now }
{
    rest.iter().all(|byte| is_name_byte(*byte))
}

fn is_name(text: &[u8]) -> bool
    ensures { result ≡ is_name text.now }
{
    let [first, rest @ ..] = text else {
        return false;
    };
    if !first.is_ascii_lowercase() {
        return false;
    }
    if rest.len() >= NAME_BYTES {
        return false;
    }
    may_follow(rest)
}

fn zeros<const N: usize>() -> [u8; N]
    ensures { result ≡ replicate N 0 }
{
    [0; N]
}

fn padded(text: &[u8]) -> [u8; 32]
    requires { length text.now ≤ 32 }
    ensures { result ≡ text.now ++ replicate (32 - length text.now) 0 }
{
    let mut padded = zeros::<32>();
    padded[..text.len()].copy_from_slice(text);
    padded
}

impl Name {
    /// The name that this text spells; none exactly when it is not a name.
    pub fn read(text: &str) -> Option<Name>
        ensures { SomeIff result (IsName text.now) text.now }
    {
        let bytes = text.as_bytes();
        if !is_name(bytes) {
            return None;
        }
        Some(Name {
            padded: padded(bytes),
            len: bytes.len() as u8,
        })
    }

    /// The name's text, in ASCII.
    pub fn bytes(&self) -> &[u8]
        ensures text { result.now ≡ self.now }
        ensures named { IsName self.now }
    {
        &self.padded[..self.len as usize]
    }
}

impl PartialEq for Name {
    ghost eq = { pointwise nat_eq };

    ghost laws = { partial_equiv_from_equiv nat_list_eq_equiv };

    fn eq(&self, other: &Name) -> bool {
        self.bytes() == other.bytes()
    }
}

impl Eq for Name {
    ghost laws = { nat_list_eq_equiv };
}

impl PartialOrd for Name {
    ghost partial_cmp = { λ name other. Some (slice_cmp nat_cmp name other) };

    ghost laws = { texts_po };

    fn partial_cmp(&self, other: &Name) -> Option<Ordering> {
        Some(self.cmp(other))
    }
}

impl Ord for Name {
    ghost cmp = { slice_cmp nat_cmp };

    ghost total = { nat_list_cmp_total };

    ghost matches_partial_cmp = { λ name other. refl };

    ghost matches_eq = { texts_ties };

    fn cmp(&self, other: &Name) -> Ordering {
        self.bytes().cmp(other.bytes())
    }
}
