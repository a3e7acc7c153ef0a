// The writing of a turn.
ghost use Rattle.std.specs.Prelude.{◌≡◌, ◌+◌, ◌<◌, ◌≤◌, ◌^◌, true, None, IfSome};
ghost use Rattle.node_rules.specs.Nodes.{has_synchronised};
ghost use Rattle.mirror.specs.Replicas.{states};
ghost use Rattle.turn_writer.specs.Went.{EventWritten};
ghost use Rattle.turn_writer.specs.Writing.{HasTurnRoom, NoneLeft, Written};

use crate::Lost;
use crate::catching::catch_all;
use crate::losses::record_losses;
use crate::putting::{crash, put_entry, rejoin};
use memory_node::MemoryNode;
use mirror::Mirror;
use mkt_base::Entry;
use node_rules::joins;

// Writes an entry to the nodes, with what its event does to them. The nodes that were lost; none where no synchronised node is
// left to read from or to write to.
#[inline(always)]
fn write_event<N: MemoryNode>(mirror: &mut Mirror<N>, entry: &Entry) -> Option<Lost>
    requires place { entry.now.place ≡ mirror.old.length }
    requires caller { 0 < entry.now.caller.0 }
    requires some { has_synchronised (states mirror.old) ≡ true }
    requires room { HasTurnRoom entry.now.event mirror.old }
    ensures written { IfSome result (λ lost. EventWritten entry.now lost mirror.old mirror.new) }
    ensures none_left { result ≡ None → NoneLeft entry.now mirror.old mirror.new }
{
    let node = joins(&entry.event, mirror.states());
    let Some(mut lost) = catch_all(mirror, &entry.event) else {
        return None;
    };
    crash(mirror, &entry.event, &mut lost);
    if !put_entry(mirror, entry, &mut lost) {
        return None;
    }
    if !rejoin(mirror, node, &mut lost) {
        return None;
    }
    Some(lost)
}

/// Writes an entry of a gateway to the nodes, and then the loss of each node that failed meanwhile, until none is unrecorded. The
/// joining nodes first catch up by a piece of the journal, but for one that the entry's event crashes; then a crash wipes its node;
/// then the entry goes to each synchronised node; then a rejoin's node takes its first piece, the rejoin itself included. `own` is
/// the system's next own number, which the first loss takes.
///
/// The nodes that were lost, in the order of their entries; a node that the event itself crashes is none of them. None where no
/// synchronised node is left; the nodes then hold nothing of use.
#[inline(always)]
pub fn write_turn<N: MemoryNode>(mirror: &mut Mirror<N>, entry: &Entry, own: u32) -> Option<Lost>
    requires place { entry.now.place ≡ mirror.old.length }
    requires caller { 0 < entry.now.caller.0 }
    requires own { own + 3 < 2 ^ 32 }
    requires some { has_synchronised (states mirror.old) ≡ true }
    requires room { HasTurnRoom entry.now.event mirror.old }
    ensures written { IfSome result (λ lost. Written entry.now own lost mirror.old mirror.new) }
    ensures none_left { result ≡ None → NoneLeft entry.now mirror.old mirror.new }
{
    let Some(mut lost) = write_event(mirror, entry) else {
        return None;
    };
    if !record_losses(mirror, own, &mut lost) {
        return None;
    }
    Some(lost)
}
