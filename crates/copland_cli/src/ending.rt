ghost use Rattle.std.specs.Prelude.{◌≡◌};
ghost use Rattle.copland_cli.specs.Appraised.{ending_of_verdicts};
ghost use Rattle.copland_cli.specs.Chosen.{ending_of_choice};
ghost use Rattle.copland_cli.specs.Loaded.{ending_of_load};
ghost use Rattle.copland_cli.specs.Ordered.{ending_of_claims};
ghost use Rattle.copland_cli.specs.Reported.{ending_of};
ghost use Rattle.copland_cli.specs.Status.{ending_status};

use crate::status::Status;

/// How a report that is written whole ends.
#[derive(Clone, Copy, Debug, PartialEq, Eq)]
pub enum Ending {
    Good,
    /// A session in it failed, or one of a made job isn't accepted.
    SomeFailed,
    /// A claim in it is broken.
    ClaimBroken,
    /// No session is chosen.
    Denied,
    /// Its verdicts aren't all good.
    Rejected,
}

impl Ending {
    /// The ending of a report on sessions, by whether one of them failed.
    pub fn of_sessions(some_failed: bool) -> Ending
        ensures { result ≡ ending_of some_failed }
    {
        if some_failed {
            Ending::SomeFailed
        } else {
            Ending::Good
        }
    }

    /// The ending of a report on a made job, by whether each session is done and accepted.
    pub fn of_load(all_accepted: bool) -> Ending
        ensures { result ≡ ending_of_load all_accepted }
    {
        if all_accepted {
            Ending::Good
        } else {
            Ending::SomeFailed
        }
    }

    /// The ending of a report on claims, by whether one of them is broken.
    pub fn of_claims(broken: bool) -> Ending
        ensures { result ≡ ending_of_claims broken }
    {
        if broken {
            Ending::ClaimBroken
        } else {
            Ending::Good
        }
    }

    /// The ending of a report on a choice, by the session that is chosen.
    pub fn of_choice(chosen: Option<u32>) -> Ending
        ensures { result ≡ ending_of_choice chosen }
    {
        match chosen {
            Some(_) => Ending::Good,
            None => Ending::Denied,
        }
    }

    /// The ending of a report on verdicts, by whether all are good.
    pub fn of_verdicts(all_good: bool) -> Ending
        ensures { result ≡ ending_of_verdicts all_good }
    {
        if all_good {
            Ending::Good
        } else {
            Ending::Rejected
        }
    }

    /// The status of a run that ends so.
    pub fn status(self) -> Status
        ensures { result ≡ ending_status self }
    {
        match self {
            Ending::Good => Status::Good,
            Ending::SomeFailed => Status::SomeFailed,
            Ending::ClaimBroken => Status::ClaimBroken,
            Ending::Denied => Status::Denied,
            Ending::Rejected => Status::Rejected,
        }
    }
}
