ghost use Rattle.std.specs.Prelude.{◌≡◌, ◌≤◌, ◌∷◌, ◌++◌, ◌||◌, [], OnOk, IfOk, length, codes, false, true};
ghost use Rattle.phrase_tree.specs.Name.{IsName};
ghost use Rattle.phrase_tree.specs.Term.{term, is_branch, is_chain};
ghost use Rattle.phrase_tree.specs.Numbering.{IsSized};
ghost use Rattle.phrase_reader.specs.Canonical.{sign, order, op_text, canonical, IsWritable};
ghost use Rattle.phrase_reader.specs.Refusal.{IsRead};
ghost use Rattle.phrase_reader.specs.Printing.{opening, closing, is_leaf};

use crate::reader::TEXT_BYTES;
use byte_ports::Bytes;
use phrase_tree::{NoMemory, Phrase, Place, Split, push_asp, push_bytes};
use std::alloc::Global;

fn sign(given: bool) -> u8
    ensures { result ≡ sign given }
{
    if given {
        return b'+';
    }
    b'-'
}

fn order(parallel: bool) -> u8
    ensures { result ≡ order parallel }
{
    if parallel {
        return b'~';
    }
    b'<'
}

fn push_op(text: &mut Vec<u8>, parallel: bool, split: &Split) -> Result<(), NoMemory>
    ensures { OnOk result (text.new.items ≡ text.old.items ++ op_text parallel split.now) }
{
    let left = sign(split.left);
    let order = order(parallel);
    let right = sign(split.right);
    push_bytes(text, &[left, order, right])
}

/// What stands between the arms of a branch.
fn push_between(
    text: &mut Vec<u8>,
    closes: bool,
    parallel: bool,
    split: &Split,
    opens: bool,
) -> Result<(), NoMemory>
    ensures { OnOk result (text.new.items ≡ text.old.items ++ (closing closes ++ 32 ∷ (op_text parallel split.now ++ 32 ∷ opening opens))) }
{
    push_closing(text, closes)?;
    push_bytes(text, b" ")?;
    push_op(text, parallel, split)?;
    push_bytes(text, b" ")?;
    push_opening(text, opens)
}

/// What stands between the parts of a chain.
fn push_arrow(text: &mut Vec<u8>, closes: bool, opens: bool) -> Result<(), NoMemory>
    ensures { OnOk result (text.new.items ≡ text.old.items ++ (closing closes ++ (codes " -> " ++ opening opens))) }
{
    push_closing(text, closes)?;
    push_bytes(text, b" -> ")?;
    push_opening(text, opens)
}

/// What stands before what a request runs.
fn push_request(text: &mut Vec<u8>, place: &Place) -> Result<(), NoMemory>
    ensures { OnOk result ((text.new.items ≡ text.old.items ++ 64 ∷ (place.now ++ 32 ∷ 91 ∷ [])) × IsName place.now) }
{
    push_bytes(text, b"@")?;
    push_bytes(text, place.bytes())?;
    push_bytes(text, b" [")
}

fn is_branch(phrase: &Phrase) -> bool
    ensures { result ≡ is_branch (term phrase.now) }
{
    match phrase {
        Phrase::Seq(_, _, _) | Phrase::Par(_, _, _) => true,
        _ => false,
    }
}

fn is_chain_or_branch(phrase: &Phrase) -> bool
    ensures { result ≡ (is_branch (term phrase.now) || is_chain (term phrase.now)) }
{
    match phrase {
        Phrase::Then(_, _) | Phrase::Seq(_, _, _) | Phrase::Par(_, _, _) => true,
        _ => false,
    }
}

fn push_opening(text: &mut Vec<u8>, wanted: bool) -> Result<(), NoMemory>
    ensures { OnOk result (text.new.items ≡ text.old.items ++ opening wanted) }
{
    if wanted {
        return push_bytes(text, b"(");
    }
    Ok(())
}

fn push_closing(text: &mut Vec<u8>, wanted: bool) -> Result<(), NoMemory>
    ensures { OnOk result (text.new.items ≡ text.old.items ++ closing wanted) }
{
    if wanted {
        return push_bytes(text, b")");
    }
    Ok(())
}

fn push_leaf(text: &mut Vec<u8>, phrase: &Phrase) -> Result<(), NoMemory>
    requires { is_leaf (term phrase.now) ≡ true }
    ensures { OnOk result ((text.new.items ≡ text.old.items ++ canonical (term phrase.now)) × IsWritable (term phrase.now)) }
{
    match phrase {
        Phrase::Sig => push_bytes(text, b"SIG"),
        Phrase::Hsh => push_bytes(text, b"HSH"),
        Phrase::Nul => push_bytes(text, b"NUL"),
        Phrase::Usm(asp) => {
            push_bytes(text, b"USM ")?;
            push_asp(text, asp)
        }
        Phrase::Kim(target, asp) => {
            push_bytes(text, b"KIM ")?;
            push_bytes(text, target.bytes())?;
            push_bytes(text, b" ")?;
            push_asp(text, asp)
        }
        _ => push_bytes(text, b"CPY"),
    }
}

/// Appends the canonical text of a phrase.
#[tactic(auto, using(crate::proofs::Enclosed::enclosed_is))]
fn push_phrase(text: &mut Vec<u8>, phrase: &Phrase) -> Result<(), NoMemory>
    ensures { OnOk result ((text.new.items ≡ text.old.items ++ canonical (term phrase.now)) × IsWritable (term phrase.now)) }
{
    match phrase {
        Phrase::Cpy
        | Phrase::Sig
        | Phrase::Hsh
        | Phrase::Nul
        | Phrase::Usm(_)
        | Phrase::Kim(_, _) => push_leaf(text, phrase),
        Phrase::At(place, body) => {
            push_request(text, place)?;
            push_phrase(text, body)?;
            push_bytes(text, b"]")
        }
        Phrase::Then(left, right) => {
            push_opening(text, is_branch(left))?;
            push_phrase(text, left)?;
            push_arrow(text, is_branch(left), is_chain_or_branch(right))?;
            push_phrase(text, right)?;
            push_closing(text, is_chain_or_branch(right))
        }
        Phrase::Seq(split, left, right) => {
            push_opening(text, is_branch(left))?;
            push_phrase(text, left)?;
            push_between(text, is_branch(left), false, split, is_branch(right))?;
            push_phrase(text, right)?;
            push_closing(text, is_branch(right))
        }
        Phrase::Par(split, left, right) => {
            push_opening(text, is_branch(left))?;
            push_phrase(text, left)?;
            push_between(text, is_branch(left), true, split, is_branch(right))?;
            push_phrase(text, right)?;
            push_closing(text, is_branch(right))
        }
    }
}

/// The canonical text of a phrase, in time linear in that text. An error is want of memory. If the text
/// has at most 65,536 bytes, it is read as that phrase again.
#[tactic(auto, using(crate::proofs::RoundTrip::round_trip))]
pub fn print(alloc: Global, phrase: &Phrase) -> Result<Bytes, NoMemory>
    requires { IsSized (term phrase.now) }
    ensures text { IfOk result (λ text. text ≡ canonical (term phrase.now)) }
    ensures again { IfOk result (λ text. length text ≤ TEXT_BYTES → IsRead text (term phrase.now)) }
{
    let mut text = Vec::new(alloc);
    push_phrase(&mut text, phrase)?;
    Ok(Bytes::of(text))
}
