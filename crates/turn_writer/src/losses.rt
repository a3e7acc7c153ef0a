// The recording of losses.
ghost use Rattle.std.specs.Prelude.{◌≡◌, ◌+◌, ◌<◌, ◌≤◌, ◌^◌, ℕ, List, true, false, ◌++◌, length};
ghost use Rattle.node_rules.specs.Nodes.{has_synchronised, up};
ghost use Rattle.mirror.specs.Calls.{HasRoom, KeepsAll};
ghost use Rattle.mirror.specs.Replicas.{Replicas, states};
ghost use Rattle.turn_writer.specs.Losses.{loss_at};
ghost use Rattle.turn_writer.specs.Went.{Gone, HasPlace, LossesKnown, NoneStood, Recording};
ghost use Rattle.turn_writer.specs.Writing.{AllFailed, HasLossRoom, LossesWritten};

use crate::Lost;
use crate::putting::put_entry;
use memory_node::MemoryNode;
use mirror::Mirror;
use mkt_base::{Caller, Entry, Event, NodeNo};
use node_rules::has_synchronised;

/// The entry by which the system records the loss of a node.
pub fn loss_entry(place: u64, own: u32, k: NodeNo) -> Entry
    ensures { result ≡ loss_at place own k }
{
    Entry {
        place,
        caller: Caller(0),
        own,
        event: Event::Crash { node: k },
    }
}

// Records the next loss, where so many were recorded since `own` was the system's next own number, and notes those that are met.
// Whether a synchronised node was left.
fn record_loss<N: MemoryNode>(
    mirror: &mut Mirror<N>,
    own: u32,
    done: usize,
    lost: &mut Lost,
) -> bool
    requires next { done < length lost.old }
    requires few { done ≤ 1 }
    requires own { own + 3 < 2 ^ 32 }
    requires place { HasPlace 1 mirror.old }
    requires three { length lost.old + up (states mirror.old) ≤ 3 }
    ensures recorded { result ≡ true → (start : List ℕ) (before : Replicas) →
        Recording own done start lost.old before mirror.old → Recording own (done + 1) start lost.new before mirror.new }
    ensures none { result ≡ false → NoneStood mirror.old mirror.new }
{
    let entry = loss_entry(mirror.length(), own + done as u32, lost.node(done));
    put_entry(mirror, &entry, lost)
}

// Records the losses that are not recorded yet, and those that are met on the way. Whether a synchronised node is left.
pub(crate) fn record_losses<N: MemoryNode>(
    mirror: &mut Mirror<N>,
    own: u32,
    lost: &mut Lost,
) -> bool
    requires room { HasLossRoom lost.old mirror.old }
    requires own { own + 3 < 2 ^ 32 }
    ensures known { result ≡ true → LossesKnown own lost.old lost.new mirror.old mirror.new }
    ensures gone { result ≡ false → Gone mirror.old mirror.new }
    ensures failed { result ≡ false → AllFailed mirror.old mirror.new }
{
    let mut done = 0;
    while has_synchronised(mirror.states()) {
        if done == lost.len() {
            return true;
        }
        if !record_loss(mirror, own, done, lost) {
            return false;
        }
        done += 1;
    }
    false
}

/// Writes losses that are not recorded yet, and those that are met on the way, until none is unrecorded. The new ones come behind
/// those that are given. `own` is the system's next own number. Where no synchronised node is left the answer is `false`; the nodes
/// then hold nothing of use.
pub fn write_losses<N: MemoryNode>(mirror: &mut Mirror<N>, own: u32, lost: &mut Lost) -> bool
    requires room { HasLossRoom lost.old mirror.old }
    requires own { own + 3 < 2 ^ 32 }
    ensures written { result ≡ true →
        (more : List ℕ) × (lost.new ≡ lost.old ++ more) × LossesWritten own lost.old more mirror.old mirror.new }
    ensures none_left { result ≡ false → AllFailed mirror.old mirror.new }
{
    record_losses(mirror, own, lost)
}
