ghost use Rattle.std.specs.Prelude.{◌≡◌};

use super::*;
use std::alloc::AllocError;

/// Puts ten times a number in at that number.
fn put(list: &mut RisingList<u32>, number: u32)
    requires { list.old.bound ≡ 100 }
    ensures { list.new.bound ≡ 100 }
{
    if number < 100 && list.find(number).is_none() {
        list.insert(number, number * 10);
    }
}

#[test]
fn entries_stand_by_rising_number(rt: HostRuntime) -> Result<(), AllocError> {
    let mut list = RisingList::open(rt.alloc(), 100)?;
    assert_eq!(rt; list.first(), None);
    put(&mut list, 7);
    put(&mut list, 3);
    put(&mut list, 99);
    put(&mut list, 0);
    put(&mut list, 50);
    put(&mut list, 12);
    assert_eq!(rt; list.len(), 6);
    for (index, number) in [(0, 0), (1, 3), (2, 7), (3, 12), (4, 50), (5, 99)] {
        assert_eq!(rt; list.nth(index), Some((number, 10 * number)));
    }
    assert_eq!(rt; list.nth(6), None);
    assert_eq!(rt; list.find(12), Some(120));
    assert_eq!(rt; list.find(13), None);
    assert_eq!(rt; list.remove(7), Some(70));
    assert_eq!(rt; list.remove(7), None);
    assert_eq!(rt; list.remove(0), Some(0));
    assert_eq!(rt; list.first(), Some((3, 30)));
    assert_eq!(rt; list.len(), 4);
    Ok(())
}
