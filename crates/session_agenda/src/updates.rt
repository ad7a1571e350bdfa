ghost use Rattle.std.specs.Prelude.{◌≡◌, ◌<◌, ◌∷◌, ℕ, Some, List, IfSome};
ghost use Rattle.std.specs.List.{AllByRecursion};
ghost use Rattle.machine_tables.specs.Tables.{Next};
ghost use Rattle.session_runs.specs.Standing.{Block};
ghost use Rattle.session_tables.specs.Touched.{changed_at};
ghost use Rattle.session_agenda.specs.declared.moves.Update.{Update};
ghost use Rattle.session_agenda.specs.Kept.{next_of_task, next_by, waits_by, IsKept, HasRoomFor, SameBounds};
ghost use Rattle.session_agenda.specs.Updated.{updated_block, updated, Become, Lacks, HasRoomToMark, no_next, waits_now};

use crate::agenda::Agenda;
use crate::moves::{PlaceUpdate, Task, Update};
use avm_code::BlockName;

impl Agenda {
    /// An entry was played or answered: these blocks can do this next now, all others what they could;
    /// and a request waits or doesn't at this place, if it is told of one, and else where one did. Takes
    /// the time to unmark and to mark each of the blocks, and the place.
    pub fn follow(&mut self, blocks: &[Update], place: Option<PlaceUpdate>)
        requires kept { IsKept self.old }
        requires room { AllByRecursion (HasRoomToMark self.old) blocks.now }
        requires place { IfSome place (λ update. update.place < self.old.places.bound) }
        requires updates { (next : Block → Next) × Become (next_by self.old) blocks.now next }
        ensures blocks { (next : Block → Next) → Become (next_by self.old) blocks.now next → (block : Block) → next_by self.new block ≡ next block }
        ensures places { (other : ℕ) → waits_by self.new other ≡ waits_now place (waits_by self.old) other }
        ensures kept { IsKept self.new }
        ensures bounds { SameBounds self.old self.new }
    {
        self.unmark_all(blocks);
        self.mark_all(blocks);
        match place {
            Some(update) => self.set_place(update.place, update.waits),
            None => {}
        }
    }

    fn set_place(&mut self, place: u32, waits: bool)
        requires kept { IsKept self.old }
        requires room { place < self.old.places.bound }
        ensures places { (other : ℕ) → waits_by self.new other ≡ waits_now (Some (record { place = place; waits = waits })) (waits_by self.old) other }
        ensures blocks { (block : Block) → next_by self.new block ≡ next_by self.old block }
        ensures kept { IsKept self.new }
        ensures bounds { SameBounds self.old self.new }
    {
        if waits {
            self.mark_place(place);
        } else {
            self.unmark_place(place);
        }
    }

    fn unmark_all(&mut self, updates: &[Update])
        requires kept { IsKept self.old }
        ensures blocks { (block : Block) → next_by self.new block ≡ changed_at (updated updates.now) no_next (next_by self.old) block }
        ensures places { (place : ℕ) → waits_by self.new place ≡ waits_by self.old place }
        ensures kept { IsKept self.new }
        ensures bounds { SameBounds self.old self.new }
    {
        for update in updates {
            self.unmark(update.name);
        }
    }

    fn mark_all(&mut self, updates: &[Update])
        requires kept { IsKept self.old }
        requires room { AllByRecursion (HasRoomToMark self.old) updates.now }
        requires lacks { (next : Block → Next) × Lacks (next_by self.old) updates.now next }
        ensures blocks { (next : Block → Next) → Lacks (next_by self.old) updates.now next → (block : Block) → next_by self.new block ≡ next block }
        ensures places { (place : ℕ) → waits_by self.new place ≡ waits_by self.old place }
        ensures kept { IsKept self.new }
        ensures bounds { SameBounds self.old self.new }
    {
        for update in updates {
            self.mark_again(update);
        }
    }

    /// What a block can do next is marked, if anything; it is told of more blocks after this one.
    fn mark_again(&mut self, update: &Update)
        requires kept { IsKept self.old }
        requires room { HasRoomToMark self.old update.now }
        requires lacks { (more : List Update) × (next : Block → Next) × Lacks (next_by self.old) (update.now ∷ more) next }
        ensures blocks { (more : List Update) (next : Block → Next) → Lacks (next_by self.old) (update.now ∷ more) next → Lacks (next_by self.new) more next }
        ensures places { (place : ℕ) → waits_by self.new place ≡ waits_by self.old place }
        ensures kept { IsKept self.new }
        ensures bounds { SameBounds self.old self.new }
    {
        match update.task {
            Some(task) => self.mark_if_idle(update.name, task),
            None => {}
        }
    }

    /// The same for what it can do, unless it is marked already.
    fn mark_if_idle(&mut self, name: BlockName, task: Task)
        requires kept { IsKept self.old }
        requires room { HasRoomFor self.old name task }
        requires lacks { (more : List Update) × (next : Block → Next) × Lacks (next_by self.old) (record { name = name; task = Some task } ∷ more) next }
        ensures blocks { (more : List Update) (next : Block → Next) → Lacks (next_by self.old) (record { name = name; task = Some task } ∷ more) next → Lacks (next_by self.new) more next }
        ensures places { (place : ℕ) → waits_by self.new place ≡ waits_by self.old place }
        ensures kept { IsKept self.new }
        ensures bounds { SameBounds self.old self.new }
    {
        match self.task(name) {
            None => self.mark(name, task),
            Some(_) => {}
        }
    }
}
