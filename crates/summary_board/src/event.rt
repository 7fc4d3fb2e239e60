/// What happened to a board.
#[derive(Clone, Copy, Debug, PartialEq, Eq)]
pub enum Event {
    /// The worker with this seat took this component.
    Taken(u32, u32),
    /// The worker with this seat finished this component.
    Finished(u32, u32),
    /// The board was stopped: no component is taken after it.
    Stopped,
}
