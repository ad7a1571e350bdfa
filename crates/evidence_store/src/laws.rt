//! Laws of stores, which the functions of this module carry. They do nothing.

ghost use Rattle.std.specs.Prelude.{List};
ghost use Rattle.evidence_types.specs.Evidence.{Evidence};
ghost use Rattle.evidence_store.specs.Kept.{Grows};

/// What an id stands for it stands for after any number of additions.
pub fn growth_is_transitive()
    ensures { (first second third : List Evidence) → Grows first second → Grows second third → Grows first third }
{}
