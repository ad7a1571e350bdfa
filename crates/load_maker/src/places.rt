ghost use Rattle.std.specs.Prelude.{◌≡◌, ◌<◌, IfOk};
ghost use Rattle.seal_hmac.specs.Keys.{IsKey};
ghost use Rattle.load_maker.specs.Made.{listed};
ghost use Rattle.load_maker.specs.Names.{asp_name, place_name};
ghost use Rattle.load_maker.specs.Places.{key_bytes, made_places, place_entry};

use crate::names::{asp_name, place_name};
use phrase_tree::{Names, NoMemory};
use place_check::{PlaceEntry, Places, PlacesError};
use seal_hmac::Key;
use std::alloc::Global;

fn key_bytes(alloc: Global, number: u32) -> Result<Vec<u8>, NoMemory>
    requires { number < 8 }
    ensures bytes { IfOk result (λ bytes. bytes.items ≡ key_bytes number) }
    ensures key { IfOk result (λ bytes. IsKey bytes.items) }
{
    let mut bytes = Vec::new(alloc);
    for byte in 0..32 {
        bytes.push((16 * number + byte) as u8)?;
    }
    Ok(bytes)
}

fn key_of(alloc: Global, number: u32) -> Result<Key, NoMemory>
    requires { number < 8 }
    ensures { IfOk result (λ key. key ≡ key_bytes number) }
{
    let bytes = key_bytes(alloc, number)?;
    Ok(Key::read(&bytes).unwrap())
}

fn place_names(alloc: Global) -> Result<Names, NoMemory>
    ensures { IfOk result (λ names. names ≡ listed place_name 8) }
{
    let mut names = Vec::new(alloc);
    for number in 0..8 {
        names.push(place_name(number))?;
    }
    Ok(Names::of(names))
}

fn asp_names(alloc: Global) -> Result<Names, NoMemory>
    ensures { IfOk result (λ names. names ≡ listed asp_name 8) }
{
    let mut names = Vec::new(alloc);
    for number in 0..8 {
        names.push(asp_name(number))?;
    }
    Ok(Names::of(names))
}

fn place_entry(alloc: Global, number: u32) -> Result<PlaceEntry, NoMemory>
    requires { number < 8 }
    ensures { IfOk result (λ entry. entry ≡ place_entry number) }
{
    let name = place_name(number);
    let key = key_of(alloc, number)?;
    let asks = place_names(alloc)?;
    let sees = place_names(alloc)?;
    let offers = asp_names(alloc)?;
    Ok(PlaceEntry {
        name,
        key,
        asks,
        sees,
        offers,
    })
}

fn place_entries(alloc: Global) -> Result<Vec<PlaceEntry>, NoMemory>
    ensures { IfOk result (λ entries. entries.items ≡ made_places) }
{
    let mut entries = Vec::new(alloc);
    for number in 0..8 {
        let entry = place_entry(alloc, number)?;
        entries.push(entry)?;
    }
    Ok(entries)
}

/// The places of a made job.
pub(crate) fn made_places(alloc: Global) -> Result<Places, NoMemory>
    ensures { IfOk result (λ places. places ≡ made_places) }
{
    let entries = place_entries(alloc)?;
    match Places::of(alloc, entries) {
        Ok(places) => Ok(places),
        Err(PlacesError::Repeated { .. }) => unreachable!(),
        Err(PlacesError::NoMemory) => Err(NoMemory),
    }
}
