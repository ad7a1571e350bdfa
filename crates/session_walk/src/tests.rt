use super::*;
use bench_trait::{ArtefactBook, DigestBench};
use phrase_tree::NoMemory;

/// The schedule of 3 draws from 2: of one alone nothing is drawn, and the next numbers behind it are
/// 1017233273, whose upper half is 15521, and 1975575172, whose upper half is 30144.
#[test]
fn what_is_drawn_is_the_upper_half_of_the_next_number(rt: HostRuntime) {
    let mut draws = Draws::first(3);
    assert_eq!(rt; draws.draw(1), 0);
    assert_eq!(rt; draws.draw(65536), 15521);
    assert_eq!(rt; draws.draw(1), 0);
    assert_eq!(rt; draws.draw(65536), 30144);
    let mut again = Draws::first(3);
    assert_eq!(rt; again.draw(2), 1);
    assert_eq!(rt; again.draw(2), 0);
    let mut greatest = Draws::first(4294967295);
    assert_eq!(rt; greatest.draw(65536), 15420);
}

#[test]
fn the_schedule_of_0_draws_0_always(rt: HostRuntime) {
    let mut draws = Draws::first(0);
    for count in [1, 2, 3, 4294967296] {
        assert_eq!(rt; draws.draw(count), 0);
    }
}

#[test]
fn those_behind_one_that_is_dropped_move_up(rt: HostRuntime) -> Result<(), NoMemory> {
    let mut going = Going::of(rt.alloc(), 4)?;
    assert_eq!(rt; going.count(), 4);
    if going.count() == 4 {
        going.drop_at(1);
    }
    assert_eq!(rt; going.count(), 3);
    for (index, number) in [(0, 0), (1, 2), (2, 3)] {
        if index < going.count() {
            assert_eq!(rt; going.nth(index), number);
        }
    }
    Ok(())
}

#[test]
fn the_laws_of_walks_are_called(rt: HostRuntime) {
    let artefacts = ArtefactBook::empty(rt.alloc());
    walk_law::<DigestBench>();
    records_law(&DigestBench, &artefacts);
    digests_make_one_walk();
}
