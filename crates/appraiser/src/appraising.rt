ghost use Rattle.std.specs.Option.{option_copied};
ghost use Rattle.evidence_types.specs.Evidence.{evidence};
ghost use Rattle.evidence_types.specs.Shape.{form};
ghost use Rattle.appraiser.specs.Appraised.{Appraises, CanAppraise, HasMarks, basis_of};

use crate::expecting::Given;
use crate::fitting::fits_at;
use crate::judging::{gather, judge};
use crate::verdict::Verdicts;
use byte_ports::Bytes;
use evidence_types::{Shape, Value};
use place_check::Places;
use reference_book::References;
use std::alloc::Global;

/// Why a value was not judged.
#[derive(Clone, Copy, Debug, PartialEq, Eq)]
pub enum AppraiseError {
    /// The value does not fit the shape: the number of the first node that does not, counted from 0, a node
    /// before its parts and left before right.
    WrongShape { node: u32 },
    NoMemory,
}

/// The verdicts of a value on a shape, a node before its parts and left before right: one for each nonce, which
/// is good if it is the session's; for each answer, which is good if it is one of the references of its
/// measurement, and the answer that the value holds first for its event; for each seal, which is good if it is
/// the seal of the shape's place over what the value has under it; and for each hash, which is good if it is
/// the hash of what is expected under it. Or the first node that does not fit. The marks, if there are any,
/// are those of the value's measurements.
///
/// Each seal costs time linear in the bytes of the value under it. For a hash the bytes of what is expected
/// under it are made in one block of memory, in which each seal and hash is one run over what stands behind
/// it. An answer is looked for among the references of its measurement, and among those that the value
/// holds, one after the other.
pub fn appraise(
    alloc: Global,
    shape: &Shape,
    value: &Value,
    marks: Option<&Bytes>,
    places: &Places,
    references: &References,
    nonce: &[u8; 16],
) -> Result<Verdicts, AppraiseError>
    requires marks { HasMarks (evidence value.now) (option_copied marks) }
    requires appraisable { CanAppraise (basis_of places.now references.now nonce.now) (form shape.now) }
    ensures { Appraises places.now (basis_of places.now references.now nonce.now) (evidence value.now) (option_copied marks.entry) (form shape.now) result }
{
    if let Some(node) = fits_at(shape, value, marks, places) {
        return Err(AppraiseError::WrongShape { node });
    }
    let given = Given {
        places,
        references,
        nonce,
    };
    let mut firsts = Vec::new(alloc);
    if gather(&mut firsts, value).is_err() {
        return Err(AppraiseError::NoMemory);
    }
    let mut verdicts = Verdicts::of(Vec::new(alloc));
    match judge(alloc, &given, &firsts, value, shape, &mut verdicts) {
        Ok(()) => Ok(verdicts),
        Err(_) => Err(AppraiseError::NoMemory),
    }
}
