ghost use Rattle.std.specs.Prelude.{◌≡◌};
ghost use Rattle.job_reader.specs.Form.{field_of, item_of, top_field, whole};

use job_values::{Field, FieldAt, Section};

/// The job itself, its bundle, or an item of one of its lists.
pub(crate) fn whole(section: Section, index: u32) -> FieldAt
    ensures { result ≡ whole section index }
{
    FieldAt {
        section,
        index,
        field: None,
        item: None,
    }
}

/// A field of it.
pub(crate) fn field_of(section: Section, index: u32, field: Field) -> FieldAt
    ensures { result ≡ field_of section index field }
{
    FieldAt {
        section,
        index,
        field: Some(field),
        item: None,
    }
}

/// An item of the field.
pub(crate) fn item_of(section: Section, index: u32, field: Field, item: u32) -> FieldAt
    ensures { result ≡ item_of section index field item }
{
    FieldAt {
        section,
        index,
        field: Some(field),
        item: Some(item),
    }
}

/// A field of the job itself.
pub(crate) fn top_field(field: Field) -> FieldAt
    ensures { result ≡ top_field field }
{
    field_of(Section::Top, 0, field)
}
