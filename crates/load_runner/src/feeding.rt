ghost use Rattle.std.specs.Prelude.{◌≡◌, ◌++◌, ℕ, List, IfOk, OnOk};
ghost use Rattle.evidence_types.specs.Bundle.{IsBundleOf};
ghost use Rattle.evidence_types.specs.Evidence.{Evidence};
ghost use Rattle.evidence_types.specs.Shape.{Form, form};
ghost use Rattle.place_check.specs.declared.entry.PlaceEntry.{PlaceEntry};
ghost use Rattle.appraiser.specs.Appraised.{CanAppraise, basis_of};
ghost use Rattle.appraiser.specs.Expected.{Basis};
ghost use Rattle.appraiser.specs.Verdicts.{verdicts};
ghost use Rattle.stream_appraiser.specs.Fed.{Fed, IsReady};
ghost use Rattle.load_runner.specs.Bundled.{HasFitValue};

use appraiser::Verdicts;
use evidence_types::Shape;
use job_reader::Job;
use phrase_tree::NoMemory;
use std::alloc::Global;
use stream_appraiser::{StreamAppraiser, StreamError};

/// How many bytes of a bundle are handed to the appraiser at a time.
const PIECE: usize = 4096;

/// The verdicts on the value whose bundle the bytes are, which has the shape. The bytes go to the appraiser in
/// pieces, and the value is not built.
pub(crate) fn verdicts_on(
    alloc: Global,
    job: &Job,
    shape: &Shape,
    nonce: &[u8; 16],
    bytes: &[u8],
) -> Result<Verdicts, NoMemory>
    requires appraised { CanAppraise (basis_of job.now.places job.now.references nonce.now) (form shape.now) }
    requires value { HasFitValue bytes.now (form shape.now) }
    ensures { IfOk result (λ found. (value : Evidence) → IsBundleOf bytes.now value →
        found ≡ verdicts (basis_of job.now.places job.now.references nonce.now) value (form shape.now)) }
{
    let mut appraiser = StreamAppraiser::open(alloc, shape, &job.references, &job.places, nonce)?;
    feed_all(&mut appraiser, bytes)?;
    match appraiser.finish() {
        Ok(found) => Ok(found),
        Err(StreamError::Bad { .. }) => unreachable!(),
        Err(StreamError::WrongShape { .. }) => unreachable!(),
        Err(StreamError::NoMemory) => Err(NoMemory),
    }
}

/// Hands bytes to an appraiser in pieces.
fn feed_all(appraiser: &mut StreamAppraiser<'_>, bytes: &[u8]) -> Result<(), NoMemory>
    requires { IsReady appraiser.old }
    ensures ready { IsReady appraiser.new }
    ensures fed { OnOk result ((places : List PlaceEntry) (basis : Basis) (shape : Form) (before : List ℕ) →
        Fed places basis shape before appraiser.old → Fed places basis shape (before ++ bytes.now) appraiser.new) }
{
    for piece in bytes.chunks(PIECE) {
        appraiser.feed(piece)?;
    }
    Ok(())
}
