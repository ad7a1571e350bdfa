ghost use Rattle.std.specs.Prelude.{◌≡◌, ◌≤◌, ◌-◌, [], None, IsOk, IfOk, OnOk, OnErr};
ghost use Rattle.rising_list.specs.Rising.{find, inserted, removed};

use evidence_store::EvId;
use phrase_tree::NoMemory;
use rising_list::{find_in, insert_in, remove_in};
use std::alloc::Global;
use std::marker::Model;

/// The replies that are there, by the number of their request.
#[derive(Debug, Drop)]
pub struct Replies {
    entries: Vec<(u32, EvId)>,
    // The number of replies for which there is room.
    room: usize,
}

impl Model for Replies {
    ghost use Rattle.std.specs.Prelude.{◌+◌, ◌≤◌, vec_len, vec_capacity};
    ghost use Rattle.rising_list.specs.Rising.{RisesFrom};
    ghost use Rattle.place_mail.specs.Mail.{Replied, replied_code};

    ghost Value = { Replied };

    ghost coded = { replied_code };

    ghost view = { λ r. record { entries = r.entries.items; room = r.room } };

    ghost invariant = { λ r. RisesFrom 0 r.entries.items
        × (vec_len r.entries + r.room ≤ vec_capacity r.entries) };
}

impl Replies {
    /// No replies, with room for this many.
    pub fn open(alloc: Global, requests: u32) -> Result<Replies, NoMemory>
        ensures { IfOk result (λ replies. replies ≡ record { entries = []; room = requests }) }
    {
        let entries = Vec::with_capacity(alloc, requests as usize)?;
        Ok(Replies {
            entries,
            room: requests as usize,
        })
    }

    /// Takes room for one reply, unless there is room already.
    fn make_room(&mut self) -> Result<(), NoMemory>
        ensures ok { OnOk result ((1 ≤ self.new.room) × (self.new.room - 1 ≡ self.old.room - 1) × (self.new.entries ≡ self.old.entries)) }
        ensures err { OnErr result (self.new ≡ self.old) }
        ensures room { 1 ≤ self.old.room → IsOk result }
    {
        if self.room > 0 {
            return Ok(());
        }
        if self.entries.reserve(1).is_err() {
            return Err(NoMemory);
        }
        self.room = 1;
        Ok(())
    }

    fn put(&mut self, number: u32, evidence: EvId)
        requires free { find number self.old.entries ≡ None }
        requires room { 1 ≤ self.old.room }
        ensures { self.new ≡ record { entries = inserted number evidence self.old.entries; room = self.old.room - 1 } }
    {
        insert_in(&mut self.entries, number, evidence);
        self.room -= 1;
    }

    /// Adds the reply to the request of a number, which has none.
    pub fn answer(&mut self, number: u32, evidence: EvId) -> Result<(), NoMemory>
        requires { find number self.old.entries ≡ None }
        ensures ok { OnOk result (self.new ≡ record { entries = inserted number evidence self.old.entries; room = self.old.room - 1 }) }
        ensures err { OnErr result (self.new ≡ self.old) }
        ensures room { 1 ≤ self.old.room → IsOk result }
    {
        match self.make_room() {
            Ok(()) => {}
            Err(_) => return Err(NoMemory),
        }
        self.put(number, evidence);
        Ok(())
    }

    /// Takes the reply to the request of a number; none exactly when none is there, and then nothing
    /// changes.
    pub fn take(&mut self, number: u32) -> Option<EvId>
        ensures found { result ≡ find number self.old.entries }
        ensures rest { self.new ≡ record { entries = removed number self.old.entries; room = self.old.room } }
    {
        remove_in(&mut self.entries, number)
    }

    /// The reply to the request of a number; none exactly when none is there.
    pub fn find(&self, number: u32) -> Option<EvId>
        ensures { result ≡ find number self.now.entries }
    {
        find_in(&self.entries, number)
    }
}
