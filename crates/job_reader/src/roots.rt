ghost use Rattle.std.specs.Prelude.{◌≡◌, ◌<◌, ◌^◌, length};
ghost use Rattle.place_check.specs.Places.{is_place};
ghost use Rattle.job_reader.specs.Texts.{written_sessions};
ghost use Rattle.job_reader.specs.Whole.{FindsBadRoot};
ghost use Rattle.job_reader.specs.Testing.{AreRooted, Passes};

use crate::refusal::JobError;
use crate::sessions::SessionText;
use phrase_tree::Place;
use place_check::Places;

fn is_place(places: &Places, place: Place) -> bool
    ensures { result ≡ is_place places.now place }
{
    places.find(place).is_some()
}

/// Whether the root of each session is a place.
pub(crate) fn check_roots(places: &Places, sessions: &[SessionText<'_>]) -> Result<(), JobError>
    requires { length sessions.now < 2 ^ 32 }
    ensures { Passes (FindsBadRoot places.now (written_sessions sessions.now)) (λ done. AreRooted places.now (written_sessions sessions.now)) result }
{
    for (index, session) in sessions.iter().enumerate() {
        if !is_place(places, session.root) {
            return Err(JobError::BadRoot {
                session: index as u32,
            });
        }
    }
    Ok(())
}
