ghost use Rattle.std.specs.Prelude.{◌≡◌, ◌≤◌, ◌<◌, ◌^◌, true, false, length, take, IfSome, MatchOption};
ghost use Rattle.phrase_tree.specs.Repeats.{AreDistinct, IsFirstRepeat};
ghost use Rattle.reference_book.specs.Order.{IsInOrder, if_below};
ghost use Rattle.reference_book.specs.References.{reference_index, repeats};

use crate::index::{all_differ, in_order, number_at, same_indices};
use crate::reference::Reference;
use crate::sought::Sought;
use crate::walk::is_same;
use std::alloc::Global;

/// The index of the first of these references that is the same as this one.
fn index_of(references: &[Reference], sought: &Reference) -> Option<u32>
    requires { length references.now < 2 ^ 32 }
    ensures { result ≡ reference_index references.now sought.now }
{
    let mut index = 0;
    for reference in references {
        if is_same(reference, sought) {
            return Some(index);
        }
        index += 1;
    }
    None
}

fn if_below(bound: u32, found: Option<u32>) -> Option<u32>
    ensures { result ≡ if_below bound found }
{
    match found {
        Some(index) => { if index < bound { Some(index) } else { None } }
        None => None,
    }
}

/// The same among the references before one, by an index of all of them.
fn index_before(
    references: &[Reference],
    indices: &[u32],
    second: u32,
    sought: &Reference,
) -> Option<u32>
    requires { IsInOrder true references.now indices.now }
    ensures { result ≡ reference_index (take second references.now) sought.now }
{
    let same = same_indices(true, references, indices, &Sought::of(sought));
    if_below(second, number_at(same, 0))
}

/// The same, by an index if there is one.
fn earlier(
    references: &[Reference],
    order: &Option<Vec<u32>>,
    second: u32,
    sought: &Reference,
) -> Option<u32>
    requires few { length references.now < 2 ^ 32 }
    requires within { second ≤ length references.now }
    requires ordered { IfSome order.now (λ indices. IsInOrder true references.now indices.items) }
    ensures { result ≡ reference_index (take second references.now) sought.now }
{
    match order {
        Some(indices) => index_before(references, indices, second, sought),
        None => index_of(&references[..second as usize], sought),
    }
}

/// The first two references that are the same, by an index if there is one.
fn first_repeat_by(references: &[Reference], order: &Option<Vec<u32>>) -> Option<(u32, u32)>
    requires few { length references.now < 2 ^ 32 }
    requires ordered { IfSome order.now (λ indices. IsInOrder true references.now indices.items) }
    ensures { MatchOption result (AreDistinct (repeats references.now)) (λ pair. IsFirstRepeat (repeats references.now) pair.0 pair.1) }
{
    let mut second = 0;
    for reference in references {
        if let Some(first) = earlier(references, order, second, reference) {
            return Some((first, second));
        }
        second += 1;
    }
    None
}

/// The first two references that are the same, given an index of them that leaves their answers out. It
/// takes time in the number of references times its logarithm, and in the square of their number if
/// there is no memory for an index. If all neighbours in an index differ, all references do, and
/// nothing is looked up.
pub(crate) fn first_repeat(
    alloc: Global,
    references: &[Reference],
    order: &Option<Vec<u32>>,
) -> Option<(u32, u32)>
    requires few { length references.now < 2 ^ 32 }
    requires ordered { IfSome order.now (λ indices. IsInOrder false references.now indices.items) }
    ensures { MatchOption result (AreDistinct (repeats references.now)) (λ pair. IsFirstRepeat (repeats references.now) pair.0 pair.1) }
{
    if all_differ(false, references, order) {
        return None;
    }
    let order = in_order(alloc, true, references);
    if all_differ(true, references, &order) {
        return None;
    }
    first_repeat_by(references, &order)
}
