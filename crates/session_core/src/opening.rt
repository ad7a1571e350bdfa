//! How a core is opened.
ghost use Rattle.std.specs.Prelude.{◌≡◌, ◌<◌, ◌^◌, [], ◌∷◌, ℕ, List, IfOk, length, map};
ghost use Rattle.session_model.specs.Session.{Session};
ghost use Rattle.session_runs.specs.Standing.{opened};
ghost use Rattle.place_check.specs.Places.{keys_of};
ghost use Rattle.place_check.specs.Session.{IsCheckedAgainst, session_of};
ghost use Rattle.checked_sessions.specs.Named.{place_names};
ghost use Rattle.session_core.specs.Core.{history_in, IsCore};
ghost use Rattle.session_core.specs.Named.{name_in};
ghost use Rattle.session_core.specs.Steps.{IsOpened, ForSome};

use crate::counting::question_count;
use crate::steps::Core;
use avm_code::BlockName;
use avm_compile::compile;
use checked_sessions::{blocks_have_keys, checked_session_asks_places, places_are_apart};
use machine_world::{World, phrases_play};
use phrase_tree::{NoMemory, Place};
use place_check::{Checked, PlaceEntry, Places};
use session_agenda::{Agenda, opening_law};
use session_book::SessionBook;
use session_tables::{free_law, played_law};
use std::alloc::Global;

impl Core {
    /// The core of a session that was checked against places, just opened, with room for all that can
    /// come. An error is want of memory. Takes time linear in the phrase and in the places.
    pub fn open(alloc: Global, checked: &Checked, places: &Places) -> Result<Core, NoMemory>
        requires { IsCheckedAgainst (session_of checked.now) places.now }
        ensures adds { IfOk result (λ core. history_in core ≡ opened ∷ []) }
        ensures core { IfOk result (λ core. IsCore (session_of checked.now) (keys_of places.now) (place_names places.now) core) }
    {
        phrases_play();
        played_law();
        places_are_apart(places);
        checked_session_asks_places(places, checked);
        blocks_have_keys(places, checked);
        places_are_few(places);
        let phrase = checked.phrase();
        let events = phrase.events();
        let questions = question_count(phrase);
        let nonce = *checked.nonce();
        nonce_is_sixteen(&nonce);
        let program = compile(alloc, phrase, checked.root())?;
        let names = names_of(alloc, places.items())?;
        let world = World::open(alloc, program, names, &nonce, events)?;
        let book = SessionBook::open(alloc, events, questions)?;
        let agenda = Agenda::open(alloc, events, places.count())?;
        let mut core = Core {
            world,
            agenda,
            book,
            nonce,
        };
        core.tell_of_opening();
        Ok(core)
    }

    /// The agenda of a session just opened is told what the root can do.
    fn tell_of_opening(&mut self)
        requires { ForSome IsOpened self.old }
        ensures core { (session : Session) (keys : List (List ℕ × List ℕ)) (places : List (List ℕ)) →
            IsOpened session keys places self.old → IsCore session keys places self.new }
        ensures rest { self.new ≡ record self.old { agenda = self.new.agenda } }
    {
        opening_law();
        free_law();
        let root = self.update(BlockName::Root);
        self.agenda.follow(&[root], None);
    }
}

/// The names of places, in their order.
fn names_of(alloc: Global, entries: &[PlaceEntry]) -> Result<Vec<Place>, NoMemory>
    ensures { IfOk result (λ names. names.items ≡ map name_in entries.now) }
{
    let mut names = Vec::with_capacity(alloc, entries.len())?;
    for entry in entries {
        names.push_reserved(entry.name);
    }
    Ok(names)
}

/// A law: the places are fewer than a number of theirs can be. It does nothing.
fn places_are_few(places: &Places)
    ensures { length places.now < 2 ^ 32 }
{
    let _ = places.count();
}

/// A law: a nonce has 16 bytes. It does nothing.
fn nonce_is_sixteen(_nonce: &[u8; 16])
    ensures { length _nonce.now ≡ 16 }
{}
