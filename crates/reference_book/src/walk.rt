//! Look-ups that check each reference in turn, if there was no memory for an index.

ghost use Rattle.std.specs.Prelude.{◌≡◌, ◌<◌, ◌^◌, length, slice_get};
ghost use Rattle.std.specs.Option.{option_copied};
ghost use Rattle.std.specs.Ordering.{is_eq};
ghost use Rattle.reference_book.specs.Order.{reference_cmp, sought_reference};
ghost use Rattle.reference_book.specs.References.{answers_for, is_for, same_reference};

use crate::order::reference_order;
use crate::reference::Reference;
use crate::sought::Sought;
use evidence_types::Answer;

/// Whether a reference is for the measurement that is looked for.
fn is_for(reference: &Reference, sought: &Sought<'_>) -> bool
    ensures { result ≡ is_for sought.now.place sought.now.kind.now sought.now.asp.now reference.now }
{
    reference_order(false, reference, sought).is_eq()
}

/// Whether a reference has the same answer for the same measurement.
#[tactic(auto, using(crate::proofs::OrderLemmas::tied_same))]
pub(crate) fn is_same(reference: &Reference, other: &Reference) -> bool
    ensures { result ≡ same_reference other.now reference.now }
{
    reference_order(true, reference, &Sought::of(other)).is_eq()
}

/// How many references are for the measurement that is looked for.
pub(crate) fn count(references: &[Reference], sought: &Sought<'_>) -> u32
    requires { length references.now < 2 ^ 32 }
    ensures { result ≡ length (answers_for references.now sought.now.place sought.now.kind.now sought.now.asp.now) }
{
    let mut count = 0;
    for reference in references {
        if is_for(reference, sought) {
            count += 1;
        }
    }
    count
}

/// The answer of the reference for the measurement that is looked for, after this many others for it.
pub(crate) fn nth<'a>(
    references: &'a [Reference],
    sought: &Sought<'_>,
    index: u32,
) -> Option<&'a Answer>
    ensures { option_copied result ≡ slice_get (answers_for references.now sought.now.place sought.now.kind.now sought.now.asp.now) index }
{
    let mut passed = 0;
    for reference in references {
        if is_for(reference, sought) {
            if passed == index {
                return Some(&reference.answer);
            }
            passed += 1;
        }
    }
    None
}
