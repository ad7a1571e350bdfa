ghost use Rattle.std.specs.Prelude.{◌≡◌, ◌+◌, ◌^◌, ◌<◌, [], ◌∷◌, ◌++◌, length, None, OnOk, OnErr};
ghost use Rattle.bench_trait.specs.Artefacts.{artefact_index, IsIndexed};

use byte_ports::Bytes;
use phrase_tree::{Name, Place};
use std::alloc::{AllocError, Global};
use std::collections::BTreeMap;
use std::marker::Model;

/// A thing to be measured: its bytes, with the place where it is and its name there.
#[derive(Debug, Drop)]
pub struct Artefact {
    pub place: Place,
    pub name: Name,
    pub bytes: Bytes,
}

/// Why an artefact was not added.
#[derive(Clone, Copy, Debug, PartialEq, Eq)]
pub enum BookError {
    /// The book already has one of that name at that place, at this index.
    Repeated { first: u32 },
    NoMemory,
}

/// Artefacts in the order in which they were added, no two with one place and one name. To add and to
/// find one takes time in the logarithm of their number.
#[derive(Drop)]
pub struct ArtefactBook {
    entries: Vec<Artefact>,
    index: BTreeMap<(Place, Name), u32>,
}

impl Model for ArtefactBook {
    ghost use Rattle.std.specs.Prelude.{List, ◌^◌, ◌<◌, length};
    ghost use Rattle.bench_trait.specs.declared.artefacts.Artefact.{Artefact};
    ghost use Rattle.bench_trait.specs.Artefacts.{IsIndexed};

    ghost Value = { List Artefact };

    ghost view = { λ book. book.entries.items };

    ghost invariant = { λ book. IsIndexed book.entries.items book.index };
}

impl ArtefactBook {
    ghost use Rattle.std.specs.Option.{option_map};
    ghost use Rattle.bench_trait.specs.Artefacts.{artefact_bytes, Adds};

    /// A book with nothing in it.
    pub fn empty(alloc: Global) -> ArtefactBook
        ensures { result ≡ [] }
    {
        ArtefactBook {
            entries: Vec::new(alloc),
            index: BTreeMap::new(alloc),
        }
    }

    /// Adds an artefact at the end. After an error the book is as before.
    pub fn add(&mut self, place: Place, name: Name, bytes: Bytes) -> Result<(), BookError>
        requires { length self.old + 1 < 2 ^ 32 }
        ensures { Adds self.old self.new result (record { place = place; name = name; bytes = bytes }) }
    {
        if let Some(first) = self.index.get(&(place, name)) {
            return Err(BookError::Repeated { first: *first });
        }
        let artefact = Artefact { place, name, bytes };
        match add_new(&mut self.entries, &mut self.index, artefact) {
            Ok(()) => Ok(()),
            Err(_) => Err(BookError::NoMemory),
        }
    }

    /// The bytes of an artefact; none exactly when the book has none of that place and name.
    pub fn find(&self, place: Place, name: Name) -> Option<&[u8]>
        ensures { option_map (λ bytes. bytes.now) result ≡ artefact_bytes self.now place name }
    {
        match self.index.get(&(place, name)) {
            Some(at) => Some(self.entries[*at as usize].bytes.items()),
            None => None,
        }
    }
}

/// Adds an artefact that the book doesn't have.
fn add_new(
    entries: &mut Vec<Artefact>,
    index: &mut BTreeMap<(Place, Name), u32>,
    artefact: Artefact,
) -> Result<(), AllocError>
    requires absent { artefact_index entries.old.items artefact.place artefact.name ≡ None }
    requires few { length entries.old.items + 1 < 2 ^ 32 }
    requires indexed { IsIndexed entries.old.items index.old }
    ensures ok { OnOk result (entries.new.items ≡ entries.old.items ++ artefact ∷ []) }
    ensures indexed { IsIndexed entries.new.items index.new }
    ensures err { OnErr result (entries.new.items ≡ entries.old.items) }
{
    entries.reserve(1)?;
    let at = entries.len() as u32;
    index.insert((artefact.place, artefact.name), at)?;
    entries.push(artefact).unwrap();
    Ok(())
}
