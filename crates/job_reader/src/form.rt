ghost use Rattle.std.specs.Prelude.{◌≡◌};
ghost use Rattle.job_reader.specs.declared.form.FormError.TheVariants.{NoMemory};

use job_values::{FieldAt, FieldKind};
use std::alloc::AllocFailed;

/// Why a part of a tree was not read: its first fault of form, or want of memory.
#[derive(Clone, Copy, Debug, PartialEq, Eq)]
pub(crate) enum FormError {
    Fault { at: FieldAt, kind: FieldKind },
    NoMemory,
}

impl<T: Drop> From<AllocFailed<T>> for FormError {
    ghost from_gives = { λ _ error. error ≡ NoMemory };

    fn from(_error: AllocFailed<T>) -> FormError {
        FormError::NoMemory
    }
}
