/// What a worker calls before and after it solves a component. Nothing is known of a gate: it may
/// hold a worker up, or note who passed.
pub trait Gate {
    /// The worker of a seat is about to solve a component.
    fn enter(&self, seat: u32, component: u32);

    /// The worker of a seat has solved a component.
    fn leave(&self, seat: u32, component: u32);
}

/// A gate that lets every worker pass and does nothing.
#[derive(Clone, Copy, Debug)]
pub struct OpenGate;

impl Gate for OpenGate {
    fn enter(&self, _seat: u32, _component: u32) {}

    fn leave(&self, _seat: u32, _component: u32) {}
}
