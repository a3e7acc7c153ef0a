// The gate: what is told when a gateway begins and ends a line.
use mkt_base::Caller;

/// Something that a gateway passes before and after each of its lines, as a test that watches gateways at their work. No contract
/// speaks of it.
pub trait Gate {
    /// A gateway begins the line of this number.
    fn at(&self, gateway: Caller, line: u32);

    /// It has done it.
    fn after(&self, gateway: Caller, line: u32);
}

/// A gate that does nothing.
#[derive(Clone, Copy, Debug, PartialEq, Eq)]
pub struct NoGate;

impl Gate for NoGate {
    fn at(&self, _gateway: Caller, _line: u32) {}

    fn after(&self, _gateway: Caller, _line: u32) {}
}
