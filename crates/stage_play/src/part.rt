// A gateway with its desks.
use gateway::Gateway;

/// A gateway, and its desks, one for each issue by its number.
#[derive(Drop)]
pub struct Part<D> {
    pub gateway: Gateway,
    pub desks: Vec<D>,
}
