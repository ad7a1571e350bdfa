ghost use Rattle.std.specs.Prelude.{◌≡◌, ◌++◌, ◌∷◌, [], OnOk, nat_lt, if◌then◌else◌};

use phrase_tree::NoMemory;
use std::alloc::Global;

/// The frames of a session that are in flight, and how many were lost, or arrived and stayed.
#[derive(Debug, Drop)]
pub(crate) struct Flight {
    /// Where each stands among those that were sent, in order.
    pub frames: Vec<u32>,
    pub lost: u32,
    pub stayed: u32,
}

impl Flight {
    /// None yet.
    pub fn open(alloc: Global) -> Flight
        ensures frames { result.frames.items ≡ [] }
        ensures lost { result.lost ≡ 0 }
        ensures stayed { result.stayed ≡ 0 }
    {
        Flight {
            frames: Vec::new(alloc),
            lost: 0,
            stayed: 0,
        }
    }

    /// Lets the frame fly that was sent last, if more were sent than before.
    pub fn follow(&mut self, before: u32, now: u32) -> Result<(), NoMemory>
        ensures frames { OnOk result (self.new.frames.items ≡ (if nat_lt before now then self.old.frames.items ++ before ∷ [] else self.old.frames.items)) }
        ensures lost { self.new.lost ≡ self.old.lost }
        ensures stayed { self.new.stayed ≡ self.old.stayed }
    {
        if before < now {
            self.frames.push(before)?;
        }
        Ok(())
    }
}
