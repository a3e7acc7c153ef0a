// The calls of a turn that put an entry, wipe a node and let one join.
ghost use Rattle.std.specs.Prelude.{◌≡◌, ◌+◌, ◌<◌, ◌≤◌, ℕ, List, true, false, ◌++◌, length, IfSome};
ghost use Rattle.mkt_base.specs.declared.journal.NodeState.TheVariants as node_states;
ghost use Rattle.record_codec.specs.Entry.{spelling};
ghost use Rattle.node_rules.specs.Nodes.{up};
ghost use Rattle.mirror.specs.Calls.{HasRoom};
ghost use Rattle.mirror.specs.Mirrored.{MirrorsSome};
ghost use Rattle.mirror.specs.Replicas.{node_at, states};
ghost use Rattle.turn_writer.specs.Went.{Gone, HasPlace, NoneStood, Rejoined, Still, WasCrashed, WasPutToAll};

use crate::Lost;
use crate::catching::take_piece;
use crate::noting::note_lost;
use memory_node::MemoryNode;
use mirror::Mirror;
use mkt_base::{Entry, Event, NodeNo};

// Puts an entry to each synchronised node, and notes those that failed. Whether one was left.
#[inline(always)]
pub(crate) fn put_entry<N: MemoryNode>(
    mirror: &mut Mirror<N>,
    entry: &Entry,
    lost: &mut Lost,
) -> bool
    requires place { entry.now.place ≡ mirror.old.length }
    requires room { HasRoom 1 mirror.old }
    requires three { length lost.old + up (states mirror.old) ≤ 3 }
    ensures put { result ≡ true →
        (more : List ℕ) × (lost.new ≡ lost.old ++ more) × WasPutToAll (spelling entry.now) more mirror.old mirror.new }
    ensures still { result ≡ true → Still mirror.old mirror.new }
    ensures none { result ≡ false → NoneStood mirror.old mirror.new }
{
    let Ok(kept) = mirror.append(entry) else {
        return false;
    };
    note_lost(lost, &kept, 0, 1, 2);
    true
}

// Wipes the node that the event crashes. If the catch-up had lost it, that is no loss of the turn any more.
#[inline(always)]
pub(crate) fn crash<N: MemoryNode>(mirror: &mut Mirror<N>, event: &Event, lost: &mut Lost)
    ensures { WasCrashed event.now lost.old lost.new mirror.old mirror.new }
{
    let Event::Crash { node } = event else {
        return;
    };
    mirror.crash(*node);
    *lost = lost.without(*node);
}

// Lets a lost node join, if there is one that does, and copies the first piece of the journal to it. Whether there was a source
// for each record.
#[inline(always)]
pub(crate) fn rejoin<N: MemoryNode>(
    mirror: &mut Mirror<N>,
    node: Option<NodeNo>,
    lost: &mut Lost,
) -> bool
    requires lost { IfSome node (λ k. k < 3 → (node_at k mirror.old).state ≡ node_states.Lost) }
    requires entries { 1 ≤ mirror.old.length }
    requires mirrored { MirrorsSome mirror.old }
    requires place { HasPlace 0 mirror.old }
    requires three { IfSome node (λ k. k < 3 → length lost.old + up (states mirror.old) ≤ 2) }
    ensures joined { result ≡ true →
        (more : List ℕ) × (lost.new ≡ lost.old ++ more) × Rejoined node more mirror.old mirror.new }
    ensures a_node { IfSome node (λ k. k < 3) }
    ensures gone { result ≡ false → Gone mirror.old mirror.new }
{
    let Some(k) = node else {
        return true;
    };
    // Its number, once it is read, is known to be one of the three.
    let _number = k.n();
    mirror.rejoin(k);
    take_piece(mirror, k, lost)
}
