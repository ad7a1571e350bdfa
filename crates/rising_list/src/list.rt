ghost use Rattle.std.specs.Prelude.{◌≡◌, ◌<◌, ◌≤◌, ◌^◌, [], length, None, IfOk, IsTrue, ◌↔◌, slice_get};
ghost use Rattle.rising_list.specs.Rising.{RisesFrom, AllBelow, find, inserted, removed};

use crate::entries::{find_in, insert_in, remove_in};
use std::alloc::{AllocError, Global};
use std::marker::Model;

/// Entries that rise strictly by their numbers, all below a bound.
///
/// Looking up takes time in the logarithm of the length; putting in and taking out shift the entries
/// behind; everything else takes constant time. No call but `open` takes memory.
#[derive(Debug, Drop)]
pub struct RisingList<T> {
    bound: u32,
    entries: Vec<(u32, T)>,
}

impl<T> Model for RisingList<T> {
    ghost use Rattle.std.specs.Prelude.{◌≤◌, ◌<◌, ◌^◌, vec_capacity};
    ghost use Rattle.rising_list.specs.Rising.{Rising, rising_code, RisesFrom, AllBelow};

    ghost Value = { Rising T };

    ghost coded = { rising_code T.code };

    ghost view = { λ list. record { bound = list.bound; entries = list.entries.items } };

    ghost invariant = { λ list. RisesFrom 0 list.entries.items
        × AllBelow list.bound list.entries.items
        × (list.bound ≤ vec_capacity list.entries) };
}

impl<T: Copy> RisingList<T> {
    /// An empty list with room for every number below a bound.
    pub fn open(alloc: Global, bound: u32) -> Result<RisingList<T>, AllocError>
        ensures empty { IfOk result (λ list. list.entries ≡ []) }
        ensures bound { IfOk result (λ list. list.bound ≡ bound) }
    {
        let entries = Vec::with_capacity(alloc, bound as usize)?;
        Ok(RisingList { bound, entries })
    }

    /// The number of entries.
    pub fn len(&self) -> u32
        ensures { result ≡ length self.now.entries }
    {
        let _bound = self.bound;
        self.entries.len() as u32
    }

    /// What lies at a number; none exactly when no entry has it.
    pub fn find(&self, number: u32) -> Option<T>
        ensures { result ≡ find number self.now.entries }
    {
        find_in(&self.entries, number)
    }

    /// The entry at an index; none exactly when there are no more entries than that.
    pub fn nth(&self, index: u32) -> Option<(u32, T)>
        ensures { result ≡ slice_get self.now.entries index }
    {
        self.entries.get(index as usize).copied()
    }

    /// The entry of the least number; none exactly when there is no entry.
    pub fn first(&self) -> Option<(u32, T)>
        ensures { result ≡ slice_get self.now.entries 0 }
    {
        self.nth(0)
    }

    /// Puts an entry in at its number, which is below the bound and has none.
    pub fn insert(&mut self, number: u32, value: T)
        requires below { number < self.old.bound }
        requires free { find number self.old.entries ≡ None }
        ensures entries { self.new.entries ≡ inserted number value self.old.entries }
        ensures bound { self.new.bound ≡ self.old.bound }
    {
        insert_in(&mut self.entries, number, value);
    }

    /// Takes out the entry of a number; none exactly when no entry has it, and then nothing changes.
    pub fn remove(&mut self, number: u32) -> Option<T>
        ensures found { result ≡ find number self.old.entries }
        ensures entries { self.new.entries ≡ removed number self.old.entries }
        ensures bound { self.new.bound ≡ self.old.bound }
    {
        remove_in(&mut self.entries, number)
    }

    /// What holds of every such list: its numbers rise strictly and are below the bound.
    pub fn rises(&self)
        ensures rises { RisesFrom 0 self.now.entries }
        ensures below { AllBelow self.now.bound self.now.entries }
        ensures few { length self.now.entries ≤ self.now.bound }
    {
        let _ = &self.bound;
    }
}
