ghost use Rattle.std.specs.Prelude.{◌≡◌, ◌≤◌, ◌<◌, ◌^◌, MatchOption};
ghost use Rattle.session_agenda.specs.Kept.{rank_by, event_in, can_run, can_ask, move_of};

use avm_code::BlockName;

/// What a block can do next: go on, with the event that happens then, where there is one; or ask for the
/// answer of an event.
#[derive(Clone, Copy, Debug, PartialEq, Eq)]
pub enum Task {
    Runs(Option<u32>),
    Asks(u32),
}

/// A possible move: the first request of a place, given by its index, is delivered; a block goes on; a
/// block asks.
#[derive(Clone, Copy, Debug, PartialEq, Eq)]
pub enum Move {
    Deliver(u32),
    Run(BlockName),
    Ask(BlockName),
}

/// A block and what it can do next.
#[derive(Clone, Copy, Debug, PartialEq, Eq)]
pub struct Mover {
    pub name: BlockName,
    pub task: Task,
}

/// What a block can do next now, if anything.
#[derive(Clone, Copy, Debug, PartialEq, Eq)]
pub struct Update {
    pub name: BlockName,
    pub task: Option<Task>,
}

/// Whether a request waits now at the place of an index.
#[derive(Clone, Copy, Debug, PartialEq, Eq)]
pub struct PlaceUpdate {
    pub place: u32,
    pub waits: bool,
}

/// The number by which a block without an event is listed: the root's is the first.
pub fn rank_of(name: BlockName) -> u32
    requires { rank_by name < 2 ^ 32 }
    ensures { result ≡ rank_by name }
{
    match name {
        BlockName::Root => 0,
        BlockName::Of(number) => number + 1,
    }
}

/// That number; none exactly for the name of which it is past its type.
pub fn rank_if_any(name: BlockName) -> Option<u32>
    ensures { MatchOption result (2 ^ 32 ≤ rank_by name) (λ rank. rank ≡ rank_by name) }
{
    match name {
        BlockName::Root => Some(0),
        BlockName::Of(number) => {
            if number < u32::MAX {
                Some(number + 1)
            } else {
                None
            }
        }
    }
}

/// The event of what a block can do next.
pub fn event_of(task: Task) -> Option<u32>
    ensures { result ≡ event_in task }
{
    match task {
        Task::Runs(event) => event,
        Task::Asks(event) => Some(event),
    }
}

/// The move by which a block does what it can do next.
pub fn move_by(mover: Mover) -> Move
    ensures { result ≡ move_of mover }
{
    match mover.task {
        Task::Runs(_) => Move::Run(mover.name),
        Task::Asks(_) => Move::Ask(mover.name),
    }
}

/// Whether a block that can do this next can go on.
pub fn can_run(task: Option<Task>) -> bool
    ensures { result ≡ can_run task }
{
    match task {
        Some(Task::Runs(_)) => true,
        Some(Task::Asks(_)) => false,
        None => false,
    }
}

/// Whether a block that can do this next can ask.
pub fn can_ask(task: Option<Task>) -> bool
    ensures { result ≡ can_ask task }
{
    match task {
        Some(Task::Runs(_)) => false,
        Some(Task::Asks(_)) => true,
        None => false,
    }
}
