ghost use Rattle.std.specs.Prelude.{◌≡◌, ◌≤◌, ◌+◌, ◌++◌, ℕ, List, []};
ghost use Rattle.sha2.specs.Hashers.{Holds256};
ghost use Rattle.sha2.specs.Sha256.{sha256};
ghost use Rattle.session_model.specs.Recorded.{recorded};
ghost use Rattle.load_runner.specs.Figures.{bundle_in, is_done, one_if};
ghost use Rattle.load_runner.specs.Tally.{HasRoom};

use crate::figures::Figures;
use session_model::Record;
use sha2::{Digest, Sha256};

/// What is counted of sessions while they are run.
#[derive(Drop)]
pub(crate) struct Tally {
    events: u32,
    done: u32,
    accepted: u32,
    hasher: Sha256,
}

impl Tally {
    /// No session is counted yet.
    pub(crate) fn none() -> Tally
        ensures events { result.events ≡ 0 }
        ensures done { result.done ≡ 0 }
        ensures accepted { result.accepted ≡ 0 }
        ensures fed { Holds256 result.hasher [] }
    {
        Tally {
            events: 0,
            done: 0,
            accepted: 0,
            hasher: Sha256::new(),
        }
    }

    /// Counts a session with this many events and this record, and whether it is accepted.
    pub(crate) fn count(&mut self, events: u32, found: &Record, good: bool)
        requires room { HasRoom self.old }
        requires few { events ≤ 2048 }
        ensures events { self.new.events ≡ self.old.events + events }
        ensures done { self.new.done ≡ self.old.done + one_if (is_done (recorded found.now)) }
        ensures accepted { self.new.accepted ≡ self.old.accepted + one_if good }
        ensures fed { (fed : List ℕ) → Holds256 self.old.hasher fed → Holds256 self.new.hasher (fed ++ bundle_in (recorded found.now)) }
    {
        self.events += events;
        self.done += one_if(is_done(found));
        self.accepted += one_if(good);
        feed_bundle(&mut self.hasher, found);
    }

    /// What was counted of this many sessions.
    pub(crate) fn figures(self, sessions: u32) -> Figures
        ensures { (fed : List ℕ) → Holds256 self.hasher fed →
            result ≡ record { sessions = sessions; events = self.events; done = self.done; accepted = self.accepted; digest = sha256 fed } }
    {
        Figures {
            sessions,
            events: self.events,
            done: self.done,
            accepted: self.accepted,
            digest: self.hasher.finalize(),
        }
    }
}

fn one_if(so: bool) -> u32
    ensures value { result ≡ one_if so }
    ensures few { result ≤ 1 }
{
    if so { 1 } else { 0 }
}

/// Whether the record is of a session that is done.
fn is_done(found: &Record) -> bool
    ensures { result ≡ is_done (recorded found.now) }
{
    match found {
        Record::Done(_) => true,
        Record::Failed(_) => false,
    }
}

/// Feeds the bundle of a session that is done.
fn feed_bundle(hasher: &mut Sha256, found: &Record)
    ensures { (fed : List ℕ) → Holds256 hasher.old fed → Holds256 hasher.new (fed ++ bundle_in (recorded found.now)) }
{
    match found {
        Record::Done(done) => hasher.update(done.bundle.items()),
        Record::Failed(_) => {}
    }
}
