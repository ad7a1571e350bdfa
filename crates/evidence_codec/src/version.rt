ghost use Rattle.std.specs.Prelude.{◌≡◌};
ghost use Rattle.evidence_codec.specs.Versions.{most, version_byte};

use evidence_types::{MARKED_BYTES, VALUE_BYTES};

/// A version of bundles.
#[derive(Clone, Copy, Debug, PartialEq, Eq)]
pub enum Version {
    /// Version 1, in which measurements carry no marks.
    Plain,
    /// Version 2, in which each measurement carries a mark of one byte.
    Marked,
}

impl Version {
    /// The byte behind "CPLB".
    pub fn byte(self) -> u8
        ensures { result ≡ version_byte self }
    {
        match self {
            Version::Plain => 1,
            Version::Marked => 2,
        }
    }

    /// The greatest length of a value's bytes.
    pub fn most(self) -> u32
        ensures { result ≡ most self }
    {
        match self {
            Version::Plain => VALUE_BYTES,
            Version::Marked => MARKED_BYTES,
        }
    }
}
