ghost use Rattle.std.specs.Prelude.{◌≡◌, ◌<◌, ◌≤◌, ◌^◌, IfOk, length};
ghost use Rattle.evidence_types.specs.Shape.{form};
ghost use Rattle.place_check.specs.Session.{IsCheckedAgainst, session_of};
ghost use Rattle.job_reader.specs.Accepted.{HasCheckedSessions, job_view};
ghost use Rattle.appraiser.specs.Appraised.{CanAppraise, HasReferences};
ghost use Rattle.appraiser.specs.Fit.{CanMark, nodes};
ghost use Rattle.copland_cli.specs.Appraised.{HasOffer, IsOffered, basis_in, shape_in};
ghost use Rattle.copland_cli.specs.Offered.{IsRunnableOffer, offer_of};

use appraiser::shape_law;
use evidence_types::{Shape, shape_of};
use job_reader::{BundleIn, Job};
use phrase_tree::NoMemory;
use place_check::{Checked, checked_session_has_keys};
use std::alloc::Global;

/// The bundle of a job, and the session that it is said to be of.
#[derive(Clone, Copy, Debug)]
pub struct Offered<'a> {
    pub bundle: &'a BundleIn,
    pub checked: &'a Checked,
}

/// The bundle of a job that has one of one of its sessions.
pub fn offered_in(job: &Job) -> Offered<'_>
    requires offer { HasOffer (job_view job.now) }
    requires checked { HasCheckedSessions job.now }
    ensures offered { IsOffered (job_view job.now) (offer_of result) }
    ensures runnable { IsRunnableOffer job.now.places (offer_of result) }
    ensures against { IsCheckedAgainst (session_of result.checked.now) job.now.places }
{
    let Some(bundle) = &job.bundle else {
        unreachable!()
    };
    let Some(checked) = job.sessions.get(bundle.session as usize) else {
        unreachable!()
    };
    checked_session_has_keys(&job.places, checked);
    let _ = checked.phrase();
    Offered { bundle, checked }
}

/// The shape that the bundle's value is to have. Takes time linear in the phrase and in the shape.
pub fn shape_for(alloc: Global, offered: Offered<'_>) -> Result<Shape, NoMemory>
    ensures { IfOk result (λ shape. form shape ≡ shape_in (offer_of offered.entry)) }
{
    shape_of(alloc, offered.checked.phrase(), offered.checked.root())
}

/// The shape has few nodes; its measurements have marks; and values can be appraised by it where its references
/// do.
pub fn shape_is_fit(job: &Job, offered: Offered<'_>)
    requires runnable { IsRunnableOffer job.now.places (offer_of offered) }
    requires places { length job.now.places ≤ 64 }
    ensures few { length (nodes (shape_in (offer_of offered.entry))) < 2 ^ 32 }
    ensures marked { CanMark job.now.places (shape_in (offer_of offered.entry)) }
    ensures appraised { HasReferences job.now.references (shape_in (offer_of offered.entry)) →
        CanAppraise (basis_in (job_view job.now) (offer_of offered.entry)) (shape_in (offer_of offered.entry)) }
{
    shape_law();
}
