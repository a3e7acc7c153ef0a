// The list of the nodes that a turn lost, as the calls on the mirror tell them.
ghost use Rattle.std.specs.Prelude.{◌≡◌, ◌+◌, ◌<◌, ◌≤◌, true, ◌++◌, length};
ghost use Rattle.turn_writer.specs.Went.{caught_order, in_order, named};

use crate::Lost;
use crate::lost::node_no;
use mirror::Kept;
use mkt_base::NodeNo;

// Adds a node where it was lost.
#[inline(always)]
fn note(lost: &mut Lost, k: NodeNo, fell: bool)
    requires { length lost.old + length (named k fell) ≤ 3 }
    ensures { lost.new ≡ lost.old ++ named k fell }
{
    if fell {
        lost.push(k);
    }
}

// Adds those of three nodes that a call lost, in this order.
#[inline(always)]
pub(crate) fn note_lost(lost: &mut Lost, kept: &Kept, i: u8, j: u8, k: u8)
    requires nodes { (i < 3) × (j < 3) × (k < 3) }
    requires three { length lost.old + length (in_order i j k kept.now.lost) ≤ 3 }
    ensures { lost.new ≡ lost.old ++ in_order i j k kept.now.lost }
{
    note(lost, node_no(i), kept.lost[usize::from(i)]);
    note(lost, node_no(j), kept.lost[usize::from(j)]);
    note(lost, node_no(k), kept.lost[usize::from(k)]);
}

// Adds those that a catch-up lost: the sources by number, and then the node that joins.
pub(crate) fn note_caught(lost: &mut Lost, kept: &Kept, k: NodeNo)
    requires three { length lost.old + length (caught_order k kept.now.lost) ≤ 3 }
    ensures noted { lost.new ≡ lost.old ++ caught_order k kept.now.lost }
    ensures a_node { k < 3 }
{
    match k.n() {
        0 => note_lost(lost, kept, 1, 2, 0),
        1 => note_lost(lost, kept, 0, 2, 1),
        _ => note_lost(lost, kept, 0, 1, 2),
    }
}
