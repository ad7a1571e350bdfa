//! Typed readers of one field of a JSON tree: each answers the field's value, or the first thing that
//! is wrong with it. `specs/Words.antt` has the words of the fields and the way in which the path of a
//! fault is written, `specs/Reading.antt` what each reader answers.
#![tactic(auto)]

mod path;
mod reading;
#[cfg(test)]
mod tests;
mod words;

pub use path::{FieldAt, FieldError, FieldKind, Section};
pub use reading::{
    any_bytes_at, arg_of, bytes_at, list_at, name_at, name_of, number_at, optional_list_at,
    optional_name_at, text_at, unknown_in,
};
pub use words::Field;
