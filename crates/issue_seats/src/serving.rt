// Servers of issues.
ghost use Rattle.std.specs.Prelude.{◌≡◌, ◌<◌, [], None, All, IfOk};
ghost use Rattle.issue_seats.specs.Seats.{AreServed};

use issue_journal::Issue;
use issue_server::{Server, ServerFault};
use memory_node::MemoryNode;
use std::alloc::{AllocError, Global};
use thiserror::Error;
use turn_cell::Pass;

/// Why gateways were not seated.
#[derive(Clone, Copy, Debug, PartialEq, Eq, Error)]
pub enum SeatFault {
    /// There is no memory for servers or desks.
    #[error("out of memory")]
    Memory,
}

/// The servers of issues, by their numbers, and of each the pass of its caller 1.
#[derive(Drop)]
pub struct Serving<N: MemoryNode> {
    pub servers: Vec<Server<N>>,
    pub passes: Vec<Pass<Issue<N>>>,
}

/// A server of each issue for callers 1 to `callers`, in the order of the issues, which have no entry yet. `Memory` comes only where there is
/// none, and the issues are lost then.
pub fn serve_all<N: MemoryNode>(
    alloc: Global,
    issues: Vec<Issue<N>>,
    callers: u16,
) -> Result<Serving<N>, SeatFault>
    requires some_caller { 0 < callers }
    requires fresh { All (λ i. (i.entries ≡ []) × (i.halt ≡ None)) issues.items }
    ensures { IfOk result (λ s. AreServed callers issues.items s.servers.items s.passes.items) }
{
    let mut servers = match Vec::with_capacity(alloc, issues.len()) {
        Ok(servers) => servers,
        Err(AllocError) => return Err(SeatFault::Memory),
    };
    let mut passes = match Vec::with_capacity(alloc, issues.len()) {
        Ok(passes) => passes,
        Err(AllocError) => return Err(SeatFault::Memory),
    };
    for issue in issues {
        let (server, pass) = match Server::make(alloc, issue, callers) {
            Ok(made) => made,
            Err(ServerFault::Memory(_)) => return Err(SeatFault::Memory),
        };
        servers.push_reserved(server);
        passes.push_reserved(pass);
    }
    Ok(Serving { servers, passes })
}
