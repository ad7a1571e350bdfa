ghost use Rattle.std.specs.Prelude.{◌≡◌};
ghost use Rattle.serde_json.specs.View.{view};
ghost use Rattle.job_values.specs.Reading.{any_bytes_at, bytes_at};
ghost use Rattle.job_reader.specs.Form.{has_only, is_object, located};
ghost use Rattle.job_reader.specs.Reading.{Reads};

use crate::form::FormError;
use byte_ports::Bytes;
use job_values::{Field, FieldAt, FieldError, FieldKind, any_bytes_at, bytes_at, unknown_in};
use serde_json::Value;
use std::alloc::Global;

pub(crate) fn is_object(at: FieldAt, tree: &Value) -> Result<(), FormError>
    ensures { Reads (λ done. done) result (located at (is_object (view tree.now))) }
{
    if tree.is_object() {
        return Ok(());
    }
    Err(FormError::Fault {
        at,
        kind: FieldKind::WrongKind,
    })
}

pub(crate) fn has_only(at: FieldAt, tree: &Value, fields: &[Field]) -> Result<(), FormError>
    ensures { Reads (λ done. done) result (located at (has_only fields.now (view tree.now))) }
{
    if unknown_in(tree, fields) {
        return Err(FormError::Fault {
            at,
            kind: FieldKind::Unknown,
        });
    }
    Ok(())
}

/// What was read of the part of the tree that stands there.
pub(crate) fn located<T>(at: FieldAt, read: Result<T, FieldKind>) -> Result<T, FormError>
    ensures { Reads (λ value. value) result (located at read) }
{
    match read {
        Ok(value) => Ok(value),
        Err(kind) => Err(FormError::Fault { at, kind }),
    }
}

/// The bytes in a field, as `any_bytes_at`.
pub(crate) fn any_bytes_in(
    alloc: Global,
    at: FieldAt,
    tree: &Value,
    field: Field,
) -> Result<Bytes, FormError>
    ensures { Reads (λ bytes. bytes) result (located at (any_bytes_at (view tree.now) field)) }
{
    match any_bytes_at(alloc, tree, field) {
        Ok(value) => Ok(value),
        Err(FieldError::Kind(kind)) => Err(FormError::Fault { at, kind }),
        Err(FieldError::NoMemory) => Err(FormError::NoMemory),
    }
}

/// The bytes in a field, as `bytes_at`.
pub(crate) fn bytes_in(
    alloc: Global,
    at: FieldAt,
    tree: &Value,
    field: Field,
    least: u32,
    most: u32,
) -> Result<Bytes, FormError>
    ensures { Reads (λ bytes. bytes) result (located at (bytes_at (view tree.now) field least most)) }
{
    match bytes_at(alloc, tree, field, least, most) {
        Ok(value) => Ok(value),
        Err(FieldError::Kind(kind)) => Err(FormError::Fault { at, kind }),
        Err(FieldError::NoMemory) => Err(FormError::NoMemory),
    }
}
