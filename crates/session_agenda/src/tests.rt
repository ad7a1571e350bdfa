ghost use Rattle.std.specs.Prelude.{◌≡◌};
ghost use Rattle.session_agenda.specs.Kept.{IsKept, HasRoomFor, SameBounds};

use super::*;
use avm_code::BlockName;
use phrase_tree::NoMemory;

/// Marks a block that can do nothing yet, for an event that is free.
fn put(agenda: &mut Agenda, name: BlockName, task: Task)
    requires kept { IsKept agenda.old }
    requires room { HasRoomFor agenda.old name task }
    ensures kept { IsKept agenda.new }
    ensures bounds { SameBounds agenda.old agenda.new }
{
    match agenda.task(name) {
        Some(_) => {}
        None => {
            if agenda.is_free(task) {
                agenda.mark(name, task);
            }
        }
    }
}

#[test]
fn an_agenda_follows_two_parallel_arms(rt: HostRuntime) -> Result<(), NoMemory> {
    let right = BlockName::Of(0);
    let mut agenda = Agenda::open(rt.alloc(), 4, 0)?;
    assert_eq!(rt; agenda.count(), 0);
    // The root forks, at event 0.
    put(&mut agenda, BlockName::Root, Task::Runs(Some(0)));
    assert_eq!(rt; agenda.count(), 1);
    assert_eq!(rt; agenda.nth(0), Some(Move::Run(BlockName::Root)));
    assert_eq!(rt; agenda.nth(1), None);
    agenda.unmark(BlockName::Root);
    // Each arm asks for its measurement, and the right arm asks first.
    put(&mut agenda, right, Task::Asks(2));
    put(&mut agenda, BlockName::Root, Task::Asks(1));
    assert_eq!(rt; agenda.nth(0), Some(Move::Ask(BlockName::Root)));
    assert_eq!(rt; agenda.nth(1), Some(Move::Ask(right)));
    assert_eq!(rt; agenda.task(right), Some(Task::Asks(2)));
    agenda.unmark(right);
    assert_eq!(rt; agenda.count(), 1);
    assert_eq!(rt; agenda.nth(0), Some(Move::Ask(BlockName::Root)));
    assert_eq!(rt; agenda.task(right), None);
    agenda.unmark(BlockName::Root);
    assert_eq!(rt; agenda.count(), 0);
    // Both are answered: the right arm can end, and then the root can join.
    put(&mut agenda, right, Task::Runs(None));
    assert_eq!(rt; agenda.nth(0), Some(Move::Run(right)));
    agenda.unmark(right);
    put(&mut agenda, BlockName::Root, Task::Runs(Some(3)));
    assert_eq!(rt; agenda.nth(0), Some(Move::Run(BlockName::Root)));
    agenda.unmark(BlockName::Root);
    put(&mut agenda, BlockName::Root, Task::Runs(None));
    assert_eq!(rt; agenda.nth(0), Some(Move::Run(BlockName::Root)));
    agenda.unmark(BlockName::Root);
    assert_eq!(rt; agenda.count(), 0);
    Ok(())
}

#[test]
fn deliveries_come_first_and_events_last(rt: HostRuntime) -> Result<(), NoMemory> {
    let mut agenda = Agenda::open(rt.alloc(), 10, 2)?;
    put(&mut agenda, BlockName::Of(7), Task::Runs(Some(8)));
    put(&mut agenda, BlockName::Of(5), Task::Asks(6));
    put(&mut agenda, BlockName::Of(2), Task::Runs(None));
    put(&mut agenda, BlockName::Root, Task::Runs(None));
    agenda.mark_place(1);
    agenda.mark_place(0);
    agenda.mark_place(1);
    assert_eq!(rt; agenda.count(), 6);
    assert_eq!(rt; agenda.nth(0), Some(Move::Deliver(0)));
    assert_eq!(rt; agenda.nth(1), Some(Move::Deliver(1)));
    assert_eq!(rt; agenda.nth(2), Some(Move::Run(BlockName::Root)));
    assert_eq!(rt; agenda.nth(3), Some(Move::Run(BlockName::Of(2))));
    assert_eq!(rt; agenda.nth(4), Some(Move::Ask(BlockName::Of(5))));
    assert_eq!(rt; agenda.nth(5), Some(Move::Run(BlockName::Of(7))));
    assert_eq!(rt; agenda.nth(6), None);
    assert!(rt; agenda.waits(1));
    agenda.unmark_place(1);
    agenda.unmark_place(1);
    assert!(rt; !agenda.waits(1));
    assert_eq!(rt; agenda.count(), 5);
    assert!(rt; !agenda.can(Move::Deliver(1)));
    assert!(rt; agenda.can(Move::Deliver(0)));
    assert!(rt; agenda.can(Move::Run(BlockName::Of(2))));
    assert!(rt; !agenda.can(Move::Ask(BlockName::Of(2))));
    assert!(rt; agenda.can(Move::Ask(BlockName::Of(5))));
    assert!(rt; !agenda.can(Move::Run(BlockName::Of(5))));
    assert!(rt; !agenda.can(Move::Run(BlockName::Of(6))));
    assert!(rt; !agenda.can(Move::Run(BlockName::Of(u32::MAX))));
    listed_law();
    followed_law();
    Ok(())
}

/// An update of a block.
fn now(name: BlockName, task: Option<Task>) -> Update
    ensures { result ≡ record { name = name; task = task } }
{
    Update { name, task }
}

#[test]
fn one_call_tells_what_an_entry_changes(rt: HostRuntime) -> Result<(), NoMemory> {
    let right = BlockName::Of(0);
    let mut agenda = Agenda::open(rt.alloc(), 4, 2)?;
    agenda.follow(&[now(BlockName::Root, Some(Task::Runs(Some(0))))], None);
    assert_eq!(rt; agenda.count(), 1);
    assert_eq!(rt; agenda.nth(0), Some(Move::Run(BlockName::Root)));
    // The root forked: each arm asks.
    let arms = [
        now(BlockName::Root, Some(Task::Asks(1))),
        now(right, Some(Task::Asks(2))),
    ];
    agenda.follow(
        &arms,
        Some(PlaceUpdate {
            place: 1,
            waits: true,
        }),
    );
    assert_eq!(rt; agenda.count(), 3);
    assert_eq!(rt; agenda.nth(0), Some(Move::Deliver(1)));
    assert_eq!(rt; agenda.nth(1), Some(Move::Ask(BlockName::Root)));
    assert_eq!(rt; agenda.nth(2), Some(Move::Ask(right)));
    assert!(rt; !agenda.can(Move::Run(BlockName::Root)));
    // The right arm asked, and the request was delivered.
    agenda.follow(
        &[now(right, None)],
        Some(PlaceUpdate {
            place: 1,
            waits: false,
        }),
    );
    assert_eq!(rt; agenda.count(), 1);
    assert_eq!(rt; agenda.nth(0), Some(Move::Ask(BlockName::Root)));
    opening_law();
    told_law();
    Ok(())
}
