// Crashes and rejoins of memory nodes: what is replied. What becomes of the nodes is their own rule.
ghost use Rattle.std.specs.Prelude.{◌≡◌};
ghost use Rattle.issue_machine.specs.Replying.{WasReplied};
ghost use Rattle.issue_machine.specs.Step.{take_crash, take_rejoin};

use issue_floor::Floor;
use mkt_base::{NodeNo, Reason, Reply, Watch};
use node_rules::is_lost;

// A crash: of a node that is lost already it is refused.
pub(crate) fn take_crash<W: Watch>(floor: &mut Floor, node: NodeNo, watch: &mut W) -> Reply
    ensures { WasReplied W.took (take_crash node floor.old.state) floor.old floor.new watch.old watch.new result }
{
    if is_lost(floor.node(node)) {
        Reply::Refused(Reason::NodeDown(node))
    } else {
        Reply::NodeOut(node)
    }
}

// A rejoin: of a node that is not lost it is refused.
pub(crate) fn take_rejoin<W: Watch>(floor: &mut Floor, node: NodeNo, watch: &mut W) -> Reply
    ensures { WasReplied W.took (take_rejoin node floor.old.state) floor.old floor.new watch.old watch.new result }
{
    if is_lost(floor.node(node)) {
        Reply::NodeIn(node)
    } else {
        Reply::Refused(Reason::NodeUp(node))
    }
}
