// The catch-up of the joining nodes.
ghost use Rattle.std.specs.Prelude.{◌≡◌, ◌+◌, ◌<◌, ◌≤◌, ℕ, List, true, false, None, ◌++◌, length, IfSome};
ghost use Rattle.node_rules.specs.Nodes.{up};
ghost use Rattle.mirror.specs.Calls.{IsJoining, lacks};
ghost use Rattle.mirror.specs.Replicas.{node_at, states};
ghost use Rattle.turn_writer.specs.Went.{CaughtAll, CaughtOne, Gone, HasPlace, TookPiece};

use crate::Lost;
use crate::lost::node_no;
use crate::noting::note_caught;
use memory_node::MemoryNode;
use mirror::Mirror;
use mkt_base::{Event, NodeNo, NodeState};
use node_rules::{PIECE, crashes};

// Copies the next piece of the journal to a joining node, and notes the nodes that were lost on the way. Whether there was a
// source for each record.
pub(crate) fn take_piece<N: MemoryNode>(mirror: &mut Mirror<N>, k: NodeNo, lost: &mut Lost) -> bool
    requires joining { IsJoining (node_at k mirror.old).state }
    requires room { lacks mirror.old.length (node_at k mirror.old).state ≤ (node_at k mirror.old).spare }
    requires three { length lost.old + up (states mirror.old) ≤ 3 }
    ensures took { result ≡ true → (more : List ℕ) × (lost.new ≡ lost.old ++ more) × TookPiece k more mirror.old mirror.new }
    ensures a_node { result ≡ true → k < 3 }
    ensures gone { result ≡ false → Gone mirror.old mirror.new }
{
    let Ok(kept) = mirror.catch_up(k, PIECE) else {
        return false;
    };
    note_caught(lost, &kept, k);
    true
}

// The same for a node in any state; one that does not join, or that the event crashes, is left as it is.
#[inline(always)]
fn catch_one<N: MemoryNode>(
    mirror: &mut Mirror<N>,
    event: &Event,
    k: NodeNo,
    lost: &mut Lost,
) -> bool
    requires place { HasPlace 0 mirror.old }
    requires three { length lost.old + up (states mirror.old) ≤ 3 }
    ensures caught { result ≡ true →
        (more : List ℕ) × (lost.new ≡ lost.old ++ more) × CaughtOne event.now k more mirror.old mirror.new }
    ensures gone { result ≡ false → Gone mirror.old mirror.new }
{
    if crashes(event, k.n()) {
        return true;
    }
    let NodeState::Joining(_) = mirror.state(k) else {
        return true;
    };
    take_piece(mirror, k, lost)
}

// The same for each node. The nodes that were lost; none where a source was missing.
#[inline(always)]
pub(crate) fn catch_all<N: MemoryNode>(mirror: &mut Mirror<N>, event: &Event) -> Option<Lost>
    requires place { HasPlace 0 mirror.old }
    ensures caught { IfSome result (λ lost. CaughtAll event.now lost mirror.old mirror.new) }
    ensures gone { result ≡ None → Gone mirror.old mirror.new }
{
    let mut lost = Lost::none();
    if !catch_one(mirror, event, node_no(0), &mut lost) {
        return None;
    }
    if !catch_one(mirror, event, node_no(1), &mut lost) {
        return None;
    }
    if !catch_one(mirror, event, node_no(2), &mut lost) {
        return None;
    }
    Some(lost)
}
