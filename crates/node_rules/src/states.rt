// How the events of a journal move the states of its nodes.
ghost use Rattle.std.specs.Prelude.{◌≡◌, ◌+◌, ◌<◌, ◌≤◌, ◌^◌};
ghost use Rattle.node_rules.specs.Nodes.{after_event, all_caught, caught, caught_at, crashed, crashes, has_synchronised, is_joining, is_lost, is_of_node, is_synchronised, joined, joins, moves_none, node_step, piece, up, up_in};

use mkt_base::{Caller, Event, NodeNo, NodeState};

/// How many records a joining node copies at one entry.
pub const PIECE: u64 = 64;

/// Whether a node in this state is lost.
#[inline(always)]
pub fn is_lost(state: NodeState) -> bool
    ensures { result ≡ is_lost state }
{
    state == NodeState::Lost
}

#[inline(always)]
fn is_synchronised(state: NodeState) -> bool
    ensures { result ≡ is_synchronised state }
{
    state == NodeState::Synchronised
}

/// Whether some node is synchronised.
#[inline(always)]
pub fn has_synchronised(nodes: [NodeState; 3]) -> bool
    ensures { result ≡ has_synchronised nodes }
{
    is_synchronised(nodes[0]) || is_synchronised(nodes[1]) || is_synchronised(nodes[2])
}

#[inline(always)]
fn up_in(state: NodeState) -> u64
    ensures { result ≡ up_in state }
{
    if is_lost(state) { 0 } else { 1 }
}

/// How many nodes are not lost, 0 to 3.
#[inline(always)]
pub fn up(nodes: [NodeState; 3]) -> u64
    ensures count { result ≡ up nodes }
    ensures three { result ≤ 3 }
{
    up_in(nodes[0]) + up_in(nodes[1]) + up_in(nodes[2])
}

#[inline(always)]
fn is_joining(state: NodeState) -> bool
    ensures { result ≡ is_joining state }
{
    match state {
        NodeState::Joining(_) => true,
        NodeState::Lost | NodeState::Synchronised => false,
    }
}

// The state of a joining node after a piece more.
fn caught(entries: u64, state: NodeState) -> NodeState
    ensures { result ≡ caught 64 entries state }
{
    let NodeState::Joining(held) = state else {
        return state;
    };
    let Some(next) = held.checked_add(PIECE) else {
        return NodeState::Synchronised;
    };
    if next < entries {
        NodeState::Joining(next)
    } else {
        NodeState::Synchronised
    }
}

/// Whether an event crashes the node of this number.
#[inline(always)]
pub fn crashes(event: &Event, k: u8) -> bool
    ensures { result ≡ crashes event.now k }
{
    match event {
        Event::Crash { node } => node.n() == k,
        _ => false,
    }
}

// Whether an event is a crash or a rejoin.
#[inline(always)]
fn is_of_node(event: &Event) -> bool
    ensures { result ≡ is_of_node event.now }
{
    match event {
        Event::Crash { .. } | Event::Rejoin { .. } => true,
        _ => false,
    }
}

fn caught_at(event: &Event, entries: u64, k: u8, state: NodeState) -> NodeState
    ensures { result ≡ caught_at event.now entries k state }
{
    if crashes(event, k) {
        state
    } else {
        caught(entries, state)
    }
}

#[tactic(auto, unfolding(crate::specs::Nodes::all_caught))]
fn all_caught(event: &Event, entries: u64, nodes: [NodeState; 3]) -> [NodeState; 3]
    ensures { result ≡ all_caught event.now entries nodes }
{
    [
        caught_at(event, entries, 0, nodes[0]),
        caught_at(event, entries, 1, nodes[1]),
        caught_at(event, entries, 2, nodes[2]),
    ]
}

fn crashed(event: &Event, nodes: [NodeState; 3]) -> [NodeState; 3]
    ensures { result ≡ crashed event.now nodes }
{
    let Event::Crash { node } = event else {
        return nodes;
    };
    let mut after = nodes;
    after[usize::from(node.n())] = NodeState::Lost;
    after
}

/// The node that joins by an event, in these states: that of a rejoin, where it is lost.
#[inline(always)]
pub fn joins(event: &Event, nodes: [NodeState; 3]) -> Option<NodeNo>
    ensures { result ≡ joins event.now nodes }
{
    let Event::Rejoin { node } = event else {
        return None;
    };
    if is_lost(nodes[usize::from(node.n())]) {
        Some(*node)
    } else {
        None
    }
}

fn joined(entries: u64, node: Option<NodeNo>, nodes: [NodeState; 3]) -> [NodeState; 3]
    ensures { result ≡ joined entries node nodes }
{
    let Some(node) = node else {
        return nodes;
    };
    let mut after = nodes;
    after[usize::from(node.n())] = caught(entries, NodeState::Joining(0));
    after
}

#[tactic(auto, unfolding(crate::specs::Nodes::after_event))]
fn after_event(event: &Event, entries: u64, nodes: [NodeState; 3]) -> [NodeState; 3]
    requires { entries + 1 < 2 ^ 64 }
    ensures { result ≡ after_event event.now entries nodes }
{
    joined(entries + 1, joins(event, nodes), crashed(event, nodes))
}

// Whether an event is no crash and no rejoin, and no node copies records.
#[inline(always)]
fn moves_none(event: &Event, nodes: [NodeState; 3]) -> bool
    ensures { result ≡ moves_none event.now nodes }
{
    !(is_of_node(event) || is_joining(nodes[0]) || is_joining(nodes[1]) || is_joining(nodes[2]))
}

/// The states of the nodes after an entry that stands behind so many. At an entry of a gateway each joining node first copies a
/// piece of the journal so far, but for one that the entry's event crashes. A crash makes its node lost; a rejoin of a lost node
/// lets it join with the first piece, its own entry included. A node that then has all records is synchronised.
#[tactic(auto, unfolding(crate::specs::Nodes::node_step))]
#[inline(always)]
pub fn node_step(
    entries: u64,
    caller: Caller,
    event: &Event,
    nodes: [NodeState; 3],
) -> [NodeState; 3]
    requires { entries + 1 < 2 ^ 64 }
    ensures { result ≡ node_step entries caller.0 event.now nodes }
{
    if caller.0 == 0 {
        after_event(event, entries, nodes)
    } else if moves_none(event, nodes) {
        // (so does almost every entry)
        [nodes[0], nodes[1], nodes[2]]
    } else {
        after_event(event, entries, all_caught(event, entries, nodes))
    }
}
