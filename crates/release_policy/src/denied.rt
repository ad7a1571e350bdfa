/// What a policy denies of a session: at an event, which is a request or a reply, a measurement goes to a
/// place to which it may not go as it is covered there.
#[derive(Clone, Copy, Debug, PartialEq, Eq)]
pub struct Denial {
    /// The event of the request or reply.
    pub event: u32,
    /// The event of the measurement.
    pub leaf: u32,
    /// The index of the rule that decides; none if no rule is for it.
    pub rule: Option<u32>,
}
