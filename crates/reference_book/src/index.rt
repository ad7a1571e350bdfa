ghost use Rattle.std.specs.Prelude.{◌≡◌, ◌<◌, ◌^◌, IfOk, OnOk, IfSome, false, true, filter, length, not, option_map, slice_get};
ghost use Rattle.std.specs.List.{range_with_len};
ghost use Rattle.std.specs.List.Sorted.{IsNonDecreasingBy};
ghost use Rattle.std.specs.Option.{option_copied};
ghost use Rattle.std.specs.Ordering.{is_lt, ordering_index};
ghost use Rattle.phrase_tree.specs.Repeats.{AreDistinct};
ghost use Rattle.reference_book.specs.References.{answers_for, repeats};
ghost use Rattle.reference_book.specs.Order.{IsInOrder, indices_of, is_before, rises, rises_from, sought_cmp, sought_reference};

use crate::order::{index_order, sought_order};
use crate::reference::Reference;
use crate::sought::Sought;
use evidence_types::Answer;
use std::alloc::{AllocError, Global};

/// The indices of this many items.
fn indices(alloc: Global, count: u32) -> Result<Vec<u32>, AllocError>
    ensures { IfOk result (λ indices. indices.items ≡ range_with_len 0 count) }
{
    let mut indices = Vec::with_capacity(alloc, count as usize)?;
    for index in 0..count {
        indices.push(index)?;
    }
    Ok(indices)
}

fn sort(by_answer: bool, references: &[Reference], indices: &mut Vec<u32>) -> Result<(), AllocError>
    requires { indices.old.items ≡ range_with_len 0 (length references.now) }
    ensures { OnOk result (IsInOrder by_answer references.now indices.new.items) }
{
    indices.sort_by(|index, other| index_order(by_answer, references, *index, *other))
}

/// The indices of these references in their order; none for want of memory.
pub(crate) fn in_order(alloc: Global, by_answer: bool, references: &[Reference]) -> Option<Vec<u32>>
    requires { length references.now < 2 ^ 32 }
    ensures { IfSome result (λ indices. IsInOrder by_answer references.now indices.items) }
{
    let Ok(mut indices) = indices(alloc, references.len() as u32) else {
        return None;
    };
    match sort(by_answer, references, &mut indices) {
        Ok(()) => Some(indices),
        Err(_) => None,
    }
}

/// Whether each reference at these indices is before the next, from that at a first index on.
fn rises_from(by_answer: bool, references: &[Reference], first: u32, rest: &[u32]) -> bool
    ensures { result ≡ rises_from (is_before by_answer references.now) first rest.now }
{
    let mut last = first;
    for index in rest {
        if !index_order(by_answer, references, last, *index).is_lt() {
            return false;
        }
        last = *index;
    }
    true
}

fn rises(by_answer: bool, references: &[Reference], indices: &[u32]) -> bool
    ensures { result ≡ rises (is_before by_answer references.now) indices.now }
{
    match indices {
        [] => true,
        [first, rest @ ..] => rises_from(by_answer, references, *first, rest),
    }
}

/// Whether the references are seen to be distinct, since no two that are neighbours in an index tie.
#[tactic(auto, using(crate::proofs::RisingLemmas::rising_distinct))]
pub(crate) fn all_differ(
    by_answer: bool,
    references: &[Reference],
    order: &Option<Vec<u32>>,
) -> bool
    requires { IfSome order.now (λ indices. IsInOrder by_answer references.now indices.items) }
    ensures { result ≡ true → AreDistinct (repeats references.now) }
{
    match order {
        Some(indices) => rises(by_answer, references, indices),
        None => false,
    }
}

/// The indices from the first on whose reference is not before what is looked for.
fn from_first<'a>(
    by_answer: bool,
    references: &[Reference],
    indices: &'a [u32],
    sought: &Sought<'_>,
) -> &'a [u32]
    requires { IsInOrder by_answer references.now indices.now }
    ensures rest { result.now ≡ filter (λ index. not (is_lt (sought_cmp by_answer references.now (sought_reference sought.now) index))) indices.now }
    ensures ranked { IsNonDecreasingBy (λ index. ordering_index (sought_cmp by_answer references.now (sought_reference sought.now) index)) result.now }
{
    let start = indices.partition_point(|index| sought_order(
        by_answer, references, *index, sought,
    ).is_lt());
    &indices[start..]
}

/// The indices of the references that are the same as what is looked for, in the list's order. It looks
/// at a number of references that is in the logarithm of their count.
pub(crate) fn same_indices<'a>(
    by_answer: bool,
    references: &[Reference],
    indices: &'a [u32],
    sought: &Sought<'_>,
) -> &'a [u32]
    requires { IsInOrder by_answer references.now indices.now }
    ensures { result.now ≡ indices_of by_answer references.now (sought_reference sought.now) }
{
    let rest = from_first(by_answer, references, indices, sought);
    let count = rest.partition_point(|index| sought_order(
        by_answer, references, *index, sought,
    ).is_le());
    &rest[..count]
}

/// How many references are for what is looked for.
pub(crate) fn count_of(references: &[Reference], indices: &[u32], sought: &Sought<'_>) -> u32
    requires few { length references.now < 2 ^ 32 }
    requires ordered { IsInOrder false references.now indices.now }
    ensures { result ≡ length (answers_for references.now sought.now.place sought.now.kind.now sought.now.asp.now) }
{
    same_indices(false, references, indices, sought).len() as u32
}

/// The number at a position of a list.
pub(crate) fn number_at(numbers: &[u32], at: u32) -> Option<u32>
    ensures { result ≡ slice_get numbers.now at }
{
    numbers.get(at as usize).copied()
}

fn answer_at(references: &[Reference], index: u32) -> Option<&Answer>
    ensures { option_copied result ≡ option_map (λ reference. reference.answer) (slice_get references.now index) }
{
    match references.get(index as usize) {
        Some(reference) => Some(&reference.answer),
        None => None,
    }
}

/// The answer of the reference for what is looked for, after this many others for it.
pub(crate) fn nth_of<'a>(
    references: &'a [Reference],
    indices: &[u32],
    sought: &Sought<'_>,
    nth: u32,
) -> Option<&'a Answer>
    requires { IsInOrder false references.now indices.now }
    ensures { option_copied result ≡ slice_get (answers_for references.now sought.now.place sought.now.kind.now sought.now.asp.now) nth }
{
    match number_at(same_indices(false, references, indices, sought), nth) {
        Some(index) => answer_at(references, index),
        None => None,
    }
}
