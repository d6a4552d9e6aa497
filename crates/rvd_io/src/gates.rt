/// What a worker passes before and after an offer. A gate changes no data of the product, and may wait.
pub trait Gate {
    /// Called by the worker of this number before its offer.
    fn before_offer(&mut self, worker: u32);

    /// Called by the worker of this number after its offer.
    fn after_offer(&mut self, worker: u32);
}

/// A gate that does nothing.
#[derive(Clone, Copy, Debug, PartialEq, Eq)]
pub struct OpenGate;

impl Gate for OpenGate {
    fn before_offer(&mut self, _worker: u32) {}

    fn after_offer(&mut self, _worker: u32) {}
}
