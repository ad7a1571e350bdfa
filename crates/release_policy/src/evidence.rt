ghost use Rattle.std.specs.Prelude.{◌≡◌, [], ◌∷◌, ◌++◌, map, reverse, IfOk, OnOk};
ghost use Rattle.release_policy.specs.Covered.{held};
ghost use Rattle.release_policy.specs.Walked.{arm_held, hash_held, seal_held};
ghost use Rattle.release_policy.specs.declared.held.Cover.TheVariants.{Bare};

use crate::held::{Cover, Held};
use phrase_tree::{Name, NoMemory, Place, Split};
use std::alloc::Global;
use std::marker::Model;
use std::mem;

/// The measurements that evidence holds, in the preorder of its shape. They are kept in reverse, so that
/// one more is put in front without moving the others.
#[derive(Drop)]
pub(crate) struct Evidence {
    kept: Vec<Held>,
}

impl Model for Evidence {
    ghost use Rattle.std.specs.Prelude.{List, reverse};
    ghost use Rattle.release_policy.specs.declared.held.Held.{Held};

    ghost Value = { List Held };

    ghost view = { λ evidence. reverse evidence.kept.items };
}

fn sealed(what: Held) -> Held
    ensures { result ≡ seal_held what }
{
    match what.cover {
        Cover::Bare => Held {
            cover: Cover::Sealed,
            ..what
        },
        _ => what,
    }
}

fn hashed(what: Held) -> Held
    ensures { result ≡ hash_held what }
{
    Held {
        cover: Cover::Hashed,
        ..what
    }
}

fn seal_all(kept: &mut Vec<Held>)
    ensures { kept.new.items ≡ map seal_held kept.old.items }
{
    for index in 0..kept.len() {
        kept[index] = sealed(kept[index]);
    }
}

fn hash_all(kept: &mut Vec<Held>)
    ensures { kept.new.items ≡ map hash_held kept.old.items }
{
    for index in 0..kept.len() {
        kept[index] = hashed(kept[index]);
    }
}

impl Evidence {
    /// Evidence without measurements.
    pub fn none(alloc: Global) -> Evidence
        ensures { result ≡ [] }
    {
        Evidence {
            kept: Vec::new(alloc),
        }
    }

    /// What is held, the last in preorder first.
    pub fn reversed(&self) -> &[Held]
        ensures { reverse result.now ≡ self.now }
    {
        &self.kept
    }

    /// One more measurement, on what is held.
    pub fn measure(&mut self, event: u32, place: Place, measurement: Name) -> Result<(), NoMemory>
        ensures { OnOk result (self.new ≡ held event place measurement Bare ∷ self.old) }
    {
        let what = Held {
            event,
            place,
            measurement,
            cover: Cover::Bare,
        };
        self.kept.push(what)?;
        Ok(())
    }

    /// All that is held under a seal.
    pub fn seal(&mut self)
        ensures { self.new ≡ map seal_held self.old }
    {
        seal_all(&mut self.kept);
    }

    /// All that is held under a hash.
    pub fn hash(&mut self)
        ensures { self.new ≡ map hash_held self.old }
    {
        hash_all(&mut self.kept);
    }

    /// Lets go of all that is held.
    pub fn clear(&mut self)
        ensures { self.new ≡ [] }
    {
        self.kept.clear();
    }

    /// The same measurements again.
    fn copy(&self, alloc: Global) -> Result<Evidence, NoMemory>
        ensures { IfOk result (λ copy. copy ≡ self.now) }
    {
        let kept = Vec::from_slice(alloc, &self.kept)?;
        Ok(Evidence { kept })
    }

    /// What the right arm of a branch starts with; what is left is for the left arm.
    pub fn part(&mut self, alloc: Global, split: Split) -> Result<Evidence, NoMemory>
        ensures right { IfOk result (λ right. right ≡ arm_held split.right self.old) }
        ensures left { OnOk result (self.new ≡ arm_held split.left self.old) }
    {
        if !split.left {
            let before = mem::replace(self, Evidence::none(alloc));
            if split.right {
                return Ok(before);
            }
            return Ok(Evidence::none(alloc));
        }
        if split.right {
            return self.copy(alloc);
        }
        Ok(Evidence::none(alloc))
    }

    /// What another holds, and then what it holds itself.
    pub fn follow(&mut self, front: Evidence) -> Result<(), NoMemory>
        ensures { OnOk result (self.new ≡ front ++ self.old) }
    {
        self.kept.extend_from_slice(&front.kept)?;
        Ok(())
    }
}
