ghost use Rattle.std.specs.Prelude.{◌≡◌, None};
ghost use Rattle.event_system.specs.Needs.{only};

/// The direct predecessors of an event: none, one, or two, with the lesser number first.
#[derive(Clone, Copy, Debug, PartialEq, Eq)]
pub struct Needs {
    pub first: Option<u32>,
    pub second: Option<u32>,
}

impl Needs {
    /// At most one direct predecessor.
    pub(crate) fn only(first: Option<u32>) -> Needs
        ensures { result ≡ only first }
    {
        Needs {
            first,
            second: None,
        }
    }
}
