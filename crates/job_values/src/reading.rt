ghost use Rattle.std.specs.Prelude.{◌≡◌, ◌≤◌, length, not, string_bytes, IfOk};
ghost use Rattle.std.specs.BTreeMap.{keys};
ghost use Rattle.std.specs.List.{list_any};
ghost use Rattle.serde_json.specs.View.{items_view, view};
ghost use Rattle.job_values.specs.Reading.{any_bytes_at, any_bytes_of, arg_of, bytes_at, list_at, list_of, name_at, name_of, named, number_at, number_of, optional_list_at, optional_name_at, ReadsBytes, seen, text_at, unknown_in, is_known};

use crate::path::{FieldError, FieldKind};
use crate::words::Field;
use byte_ports::Bytes;
use hex::FromHexError;
use phrase_tree::{Arg, Name};
use serde_json::{Map, Value};
use std::alloc::Global;

fn named(text: &str) -> Result<Name, FieldKind>
    ensures { result ≡ named text.now }
{
    match Name::read(text) {
        Some(name) => Ok(name),
        None => Err(FieldKind::BadName),
    }
}

/// The name that a value is: WrongKind if it is not a string, BadName if the string is not a name.
/// Takes no memory.
pub fn name_of(value: &Value) -> Result<Name, FieldKind>
    ensures { result ≡ name_of (view value.now) }
{
    match value.as_str() {
        Some(text) => named(text),
        None => Err(FieldKind::WrongKind),
    }
}

/// The name in a field: Missing, or as `name_of`. Takes no memory.
pub fn name_at(object: &Value, field: Field) -> Result<Name, FieldKind>
    ensures { result ≡ name_at (view object.now) field }
{
    match object.get(field.word()) {
        Some(value) => name_of(value),
        None => Err(FieldKind::Missing),
    }
}

/// The name in a field that may be absent, or as `name_of`. Takes no memory.
pub fn optional_name_at(object: &Value, field: Field) -> Result<Option<Name>, FieldKind>
    ensures { result ≡ optional_name_at (view object.now) field }
{
    match object.get(field.word()) {
        Some(value) => match name_of(value) {
            Ok(name) => Ok(Some(name)),
            Err(kind) => Err(kind),
        },
        None => Ok(None),
    }
}

/// The string in a field: Missing, or WrongKind. Takes no memory.
pub fn text_at(object: &Value, field: Field) -> Result<&str, FieldKind>
    ensures { seen (λ text. text.now) result ≡ text_at (view object.now) field }
{
    match object.get(field.word()) {
        Some(value) => match value.as_str() {
            Some(text) => Ok(text),
            None => Err(FieldKind::WrongKind),
        },
        None => Err(FieldKind::Missing),
    }
}

fn number_of(value: &Value, least: u32, most: u32) -> Result<u32, FieldKind>
    ensures { result ≡ number_of least most (view value.now) }
{
    let Some(number) = value.as_u64() else {
        return Err(FieldKind::WrongKind);
    };
    if number < least as u64 {
        return Err(FieldKind::OutOfRange);
    }
    if number > most as u64 {
        return Err(FieldKind::OutOfRange);
    }
    Ok(number as u32)
}

/// The number in a field, from `least` to `most`: Missing; WrongKind exactly when the value is not a
/// whole number from 0 that fits 64 bits; OutOfRange. Takes no memory.
pub fn number_at(object: &Value, field: Field, least: u32, most: u32) -> Result<u32, FieldKind>
    ensures { result ≡ number_at (view object.now) field least most }
{
    match object.get(field.word()) {
        Some(value) => number_of(value, least, most),
        None => Err(FieldKind::Missing),
    }
}

/// The argument that a value is: a string that is a name (else BadName), or a whole number of 32 bits
/// (else WrongKind or OutOfRange, as `number_at`). Takes no memory.
pub fn arg_of(value: &Value) -> Result<Arg, FieldKind>
    ensures { result ≡ arg_of (view value.now) }
{
    match value.as_str() {
        Some(text) => match named(text) {
            Ok(name) => Ok(Arg::Word(name)),
            Err(kind) => Err(kind),
        },
        None => match number_of(value, 0, u32::MAX) {
            Ok(number) => Ok(Arg::Number(number)),
            Err(kind) => Err(kind),
        },
    }
}

fn any_bytes_of(alloc: Global, value: &Value) -> Result<Bytes, FieldError>
    ensures { ReadsBytes result (any_bytes_of (view value.now)) }
{
    let Some(text) = value.as_str() else {
        return Err(FieldError::Kind(FieldKind::WrongKind));
    };
    match hex::decode(alloc, text) {
        Ok(bytes) => Ok(Bytes::of(bytes)),
        Err(FromHexError::OutOfMemory) => Err(FieldError::NoMemory),
        Err(_) => Err(FieldError::Kind(FieldKind::BadHex)),
    }
}

/// The bytes in a field, in pairs of hexadecimal digits of either case, of any number: Missing,
/// WrongKind, BadHex.
pub fn any_bytes_at(alloc: Global, object: &Value, field: Field) -> Result<Bytes, FieldError>
    ensures { ReadsBytes result (any_bytes_at (view object.now) field) }
{
    match object.get(field.word()) {
        Some(value) => any_bytes_of(alloc, value),
        None => Err(FieldError::Kind(FieldKind::Missing)),
    }
}

/// The bytes in a field, from `least` to `most` of them: Missing, WrongKind, BadHex, and then
/// OutOfRange.
pub fn bytes_at(
    alloc: Global,
    object: &Value,
    field: Field,
    least: u32,
    most: u32,
) -> Result<Bytes, FieldError>
    ensures { ReadsBytes result (bytes_at (view object.now) field least most) }
{
    let bytes = match any_bytes_at(alloc, object, field) {
        Ok(bytes) => bytes,
        Err(error) => return Err(error),
    };
    if bytes.items().len() < least as usize {
        return Err(FieldError::Kind(FieldKind::OutOfRange));
    }
    if bytes.items().len() > most as usize {
        return Err(FieldError::Kind(FieldKind::OutOfRange));
    }
    Ok(bytes)
}

#[tactic(auto, using(crate::proofs::ItemLemmas::count_items))]
fn list_of(value: &Value, least: u32, most: u32) -> Result<&[Value], FieldKind>
    ensures read { seen (λ items. items_view items.now) result ≡ list_of least most (view value.now) }
    ensures enough { IfOk result (λ items. least ≤ length items.now) }
    ensures few { IfOk result (λ items. length items.now ≤ most) }
{
    let Some(items) = value.as_array() else {
        return Err(FieldKind::WrongKind);
    };
    if items.len() < least as usize {
        return Err(FieldKind::OutOfRange);
    }
    if items.len() > most as usize {
        return Err(FieldKind::OutOfRange);
    }
    Ok(items.as_slice())
}

/// The list in a field, of `least` to `most` items: Missing, WrongKind, OutOfRange. Its items are not
/// looked at. Takes no memory.
pub fn list_at(object: &Value, field: Field, least: u32, most: u32) -> Result<&[Value], FieldKind>
    ensures read { seen (λ items. items_view items.now) result ≡ list_at (view object.now) field least most }
    ensures enough { IfOk result (λ items. least ≤ length items.now) }
    ensures few { IfOk result (λ items. length items.now ≤ most) }
{
    match object.get(field.word()) {
        Some(value) => list_of(value, least, most),
        None => Err(FieldKind::Missing),
    }
}

/// The list in a field that may be absent, which means the empty one, of at most `most` items:
/// WrongKind, OutOfRange. Takes no memory.
pub fn optional_list_at(object: &Value, field: Field, most: u32) -> Result<&[Value], FieldKind>
    ensures read { seen (λ items. items_view items.now) result ≡ optional_list_at (view object.now) field most }
    ensures few { IfOk result (λ items. length items.now ≤ most) }
{
    match object.get(field.word()) {
        Some(value) => list_of(value, 0, most),
        None => Ok(&[]),
    }
}

fn is_known(fields: &[Field], key: &str) -> bool
    ensures { result ≡ is_known fields.now key.now }
{
    fields.iter().any(|field| field.word() == key)
}

fn has_other(members: &Map<String, Value>, fields: &[Field]) -> bool
    ensures { result ≡ list_any (λ key. not (is_known fields.now (string_bytes key))) (keys members.now) }
{
    members.keys().any(|key| !is_known(fields, key.as_str()))
}

/// Whether an object has a key that belongs to none of these fields. False if the value is not an
/// object. Takes no memory.
pub fn unknown_in(object: &Value, fields: &[Field]) -> bool
    ensures { result ≡ unknown_in (view object.now) fields.now }
{
    match object.as_object() {
        Some(members) => has_other(members, fields),
        None => false,
    }
}
