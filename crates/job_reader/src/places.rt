ghost use Rattle.std.specs.Prelude.{◌≡◌, ◌≤◌, length, IfOk};
ghost use Rattle.serde_json.specs.View.{items_view, view};
ghost use Rattle.seal_hmac.specs.Keys.{IsKey};
ghost use Rattle.job_reader.specs.Form.{each, name_in, names_in, place_in};
ghost use Rattle.job_reader.specs.Reading.{Reads};

use crate::field::{bytes_in, has_only, is_object, located};
use crate::form::FormError;
use crate::path::{field_of, item_of, whole};
use job_values::{Field, Section, name_at, name_of, optional_list_at};
use phrase_tree::{Name, Names};
use place_check::PlaceEntry;
use seal_hmac::Key;
use serde_json::Value;
use std::alloc::Global;

const PLACE_FIELDS: [Field; 5] = [
    Field::Name,
    Field::Key,
    Field::Asks,
    Field::Sees,
    Field::Offers,
];

/// The names in a list of a place.
fn each_name(
    alloc: Global,
    index: u32,
    field: Field,
    items: &[Value],
) -> Result<Vec<Name>, FormError>
    requires { length items.now ≤ 256 }
    ensures { Reads (λ list. list.items) result (each (name_in Section.Places index field) 0 (items_view items.now)) }
{
    let mut names = Vec::new(alloc);
    for (position, item) in items.iter().enumerate() {
        let at = item_of(Section::Places, index, field, position as u32);
        names.push(located(at, name_of(item))?)?;
    }
    Ok(names)
}

#[tactic(auto, unfolding(crate::specs::Form::names_in))]
fn names_in(
    alloc: Global,
    index: u32,
    field: Field,
    most: u32,
    tree: &Value,
) -> Result<Names, FormError>
    requires { most ≤ 256 }
    ensures { Reads (λ names. names) result (names_in Section.Places index field most (view tree.now)) }
{
    let at = field_of(Section::Places, index, field);
    let items = located(at, optional_list_at(tree, field, most))?;
    Ok(Names::of(each_name(alloc, index, field, items)?))
}

/// The key of these bytes, of which there are 16 to 128.
fn key_of(bytes: &[u8]) -> Key
    requires { IsKey bytes.now }
    ensures { result ≡ bytes.now }
{
    Key::read(bytes).unwrap()
}

#[tactic(auto, unfolding(crate::specs::Form::place_in))]
fn place_in(alloc: Global, index: u32, tree: &Value) -> Result<PlaceEntry, FormError>
    ensures { Reads (λ entry. entry) result (place_in index (view tree.now)) }
{
    let here = whole(Section::Places, index);
    is_object(here, tree)?;
    let at = field_of(Section::Places, index, Field::Name);
    let name = located(at, name_at(tree, Field::Name))?;
    let at = field_of(Section::Places, index, Field::Key);
    let key = bytes_in(alloc, at, tree, Field::Key, 16, 128)?;
    let asks = names_in(alloc, index, Field::Asks, 64, tree)?;
    let sees = names_in(alloc, index, Field::Sees, 64, tree)?;
    let offers = names_in(alloc, index, Field::Offers, 256, tree)?;
    has_only(here, tree, &PLACE_FIELDS)?;
    Ok(PlaceEntry {
        name,
        key: key_of(key.items()),
        asks,
        sees,
        offers,
    })
}

/// The places of a job.
pub(crate) fn places_in(alloc: Global, items: &[Value]) -> Result<Vec<PlaceEntry>, FormError>
    requires { length items.now ≤ 64 }
    ensures read { Reads (λ list. list.items) result (each place_in 0 (items_view items.now)) }
    ensures all { IfOk result (λ list. length list.items ≡ length items.now) }
{
    let mut places = Vec::new(alloc);
    for (index, item) in items.iter().enumerate() {
        places.push(place_in(alloc, index as u32, item)?)?;
    }
    Ok(places)
}
