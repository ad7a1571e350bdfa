ghost use Rattle.std.specs.Prelude.{◌≡◌};
ghost use Rattle.std.specs.Ordering.{nat_cmp};
ghost use Rattle.std.specs.Cmp.Lexicographic.{slice_cmp};
ghost use Rattle.reference_book.specs.Order.{arg_cmp, asp_cmp, index_cmp, kind_cmp, reference_cmp, sought_cmp, sought_reference, told_by};

use crate::reference::Reference;
use crate::sought::Sought;
use bench_trait::AskKind;
use phrase_tree::{Arg, Asp};
use std::cmp::Ordering;

fn arg_order(arg: &Arg, other: &Arg) -> Ordering
    ensures { result ≡ arg_cmp arg.now other.now }
{
    match arg {
        Arg::Number(number) => match other {
            Arg::Number(second) => number.cmp(second),
            Arg::Word(_) => Ordering::Less,
        },
        Arg::Word(name) => match other {
            Arg::Number(_) => Ordering::Greater,
            Arg::Word(word) => name.cmp(word),
        },
    }
}

fn args_order(args: &[Arg], others: &[Arg]) -> Ordering
    ensures { result ≡ slice_cmp arg_cmp args.now others.now }
{
    let [arg, rest @ ..] = args else {
        return if others.is_empty() {
            Ordering::Equal
        } else {
            Ordering::Less
        };
    };
    let [other, behind @ ..] = others else {
        return Ordering::Greater;
    };
    match arg_order(arg, other) {
        Ordering::Equal => args_order(rest, behind),
        unequal => unequal,
    }
}

fn asp_order(asp: &Asp, other: &Asp) -> Ordering
    ensures { result ≡ asp_cmp asp.now other.now }
{
    match asp.name.cmp(&other.name) {
        Ordering::Equal => args_order(asp.args.items(), other.args.items()),
        unequal => unequal,
    }
}

fn kind_order(kind: &AskKind, other: &AskKind) -> Ordering
    ensures { result ≡ kind_cmp kind.now other.now }
{
    match kind {
        AskKind::Usm => match other {
            AskKind::Usm => Ordering::Equal,
            AskKind::Kim(_) => Ordering::Less,
        },
        AskKind::Kim(target) => match other {
            AskKind::Usm => Ordering::Greater,
            AskKind::Kim(second) => target.cmp(second),
        },
    }
}

fn answer_order(by_answer: bool, reference: &Reference, sought: &Sought<'_>) -> Ordering
    ensures { result ≡ slice_cmp nat_cmp (told_by by_answer reference.now) (told_by by_answer (sought_reference sought.now)) }
{
    if !by_answer {
        return Ordering::Equal;
    }
    reference.answer.bytes().cmp(sought.answer)
}

/// How a reference compares with what is looked for: by place, kind with target and measurement, and
/// then by the answer if that is asked for. No text of a measurement is made.
pub(crate) fn reference_order(
    by_answer: bool,
    reference: &Reference,
    sought: &Sought<'_>,
) -> Ordering
    ensures { result ≡ reference_cmp by_answer reference.now (sought_reference sought.now) }
{
    match reference.place.cmp(&sought.place) {
        Ordering::Equal => {}
        unequal => return unequal,
    }
    match kind_order(&reference.kind, sought.kind) {
        Ordering::Equal => {}
        unequal => return unequal,
    }
    match asp_order(&reference.asp, sought.asp) {
        Ordering::Equal => answer_order(by_answer, reference, sought),
        unequal => unequal,
    }
}

/// How the reference at an index compares with what is looked for; an index without one comes first.
pub(crate) fn sought_order(
    by_answer: bool,
    references: &[Reference],
    index: u32,
    sought: &Sought<'_>,
) -> Ordering
    ensures { result ≡ sought_cmp by_answer references.now (sought_reference sought.now) index }
{
    match references.get(index as usize) {
        Some(reference) => reference_order(by_answer, reference, sought),
        None => Ordering::Less,
    }
}

/// How the references at two indices compare.
pub(crate) fn index_order(
    by_answer: bool,
    references: &[Reference],
    index: u32,
    other: u32,
) -> Ordering
    ensures { result ≡ index_cmp by_answer references.now index other }
{
    match references.get(other as usize) {
        Some(reference) => sought_order(by_answer, references, index, &Sought::of(reference)),
        None if references.get(index as usize).is_some() => Ordering::Greater,
        None => Ordering::Equal,
    }
}
