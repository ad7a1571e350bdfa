ghost use Rattle.std.specs.Prelude.{◌≡◌};
ghost use Rattle.job_values.specs.Words.{kind_word, section_word};

use crate::words::Field;

/// A part of a job: the job itself, one of its four lists, or its bundle.
#[derive(Clone, Copy, Debug, PartialEq, Eq)]
pub enum Section {
    Top,
    Places,
    Artefacts,
    Sessions,
    References,
    Bundle,
}

impl Section {
    /// The word of the section, which is empty for the job itself.
    pub fn word(self) -> &'static str
        ensures { result.now ≡ section_word self }
    {
        match self {
            Section::Top => "",
            Section::Places => "places",
            Section::Artefacts => "artefacts",
            Section::Sessions => "sessions",
            Section::References => "references",
            Section::Bundle => "bundle",
        }
    }
}

/// What is wrong with a field.
#[derive(Clone, Copy, Debug, PartialEq, Eq)]
pub enum FieldKind {
    /// It is required and is not there.
    Missing,
    /// It is of another kind of JSON value.
    WrongKind,
    /// It is not pairs of hexadecimal digits.
    BadHex,
    /// It is not a name.
    BadName,
    /// It is a list, bytes or a number outside its bounds.
    OutOfRange,
    /// The object has a key that none of its fields has.
    Unknown,
}

impl FieldKind {
    pub fn word(self) -> &'static str
        ensures { result.now ≡ kind_word self }
    {
        match self {
            FieldKind::Missing => "missing",
            FieldKind::WrongKind => "wrong-kind",
            FieldKind::BadHex => "bad-hex",
            FieldKind::BadName => "bad-name",
            FieldKind::OutOfRange => "out-of-range",
            FieldKind::Unknown => "unknown",
        }
    }
}

/// Where in a job something is wrong: in a part of the job, in an item of it by index, in a field of
/// that, in an item of the field. The index is 0 in the job itself and in its bundle.
#[derive(Clone, Copy, Debug, PartialEq, Eq)]
pub struct FieldAt {
    pub section: Section,
    pub index: u32,
    pub field: Option<Field>,
    pub item: Option<u32>,
}

/// Why a field that takes memory was not read.
#[derive(Clone, Copy, Debug, PartialEq, Eq)]
pub enum FieldError {
    Kind(FieldKind),
    NoMemory,
}
