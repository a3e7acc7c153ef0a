// A turn: the event goes to the nodes first, and then to the machine and the working list.
ghost use Rattle.std.specs.Prelude.{◌≡◌, ◌+◌, ◌<◌, ◌≤◌, [], ◌∷◌, ◌++◌, None, Some, Err, length, IfSome};
ghost use Rattle.mkt_base.specs.declared.journal.TurnStop.TheVariants.{JournalFull};
ghost use Rattle.node_rules.specs.Nodes.{up};
ghost use Rattle.mirror.specs.Replicas.{states};
ghost use Rattle.issue_machine.specs.History.{FollowOn, entries_by};
ghost use Rattle.issue_machine.specs.Journal.{IsEventOf};
ghost use Rattle.turn_writer.specs.Losses.{losses_from};
ghost use Rattle.turn_writer.specs.Writing.{KeepsEach, asks};
ghost use Rattle.issue_journal.specs.Inside.{all_wiped, worked};
ghost use Rattle.issue_journal.specs.Issue.{IsIssueNow};
ghost use Rattle.issue_journal.specs.Turned.{HasPlace, HasTurned, TurnDone, WasHalted, entry_behind, losses_after};

use crate::Issue;
use crate::numbers::entry_numbers;
use crate::work::Work;
use memory_node::MemoryNode;
use mirror::Mirror;
use mkt_base::{Caller, Entry, Event, Halt, NodeNo, Reply, TurnStop};
use node_rules::up;
use turn_writer::{Lost, loss_entry, write_turn};

// One node more may be up after a rejoin.
#[inline(always)]
fn asks(event: &Event) -> u64
    ensures { result ≡ asks event.now }
{
    match event {
        Event::Rejoin { .. } => 1,
        _ => 0,
    }
}

// The three node numbers.
#[inline(always)]
pub(crate) fn numbers() -> [NodeNo; 3]
    ensures { result ≡ 0 ∷ 1 ∷ 2 ∷ [] }
{
    match (NodeNo::new(0), NodeNo::new(1), NodeNo::new(2)) {
        (Some(first), Some(second), Some(third)) => [first, second, third],
        _ => unreachable!(),
    }
}

// How many nodes are not lost.
#[inline(always)]
fn up_now<N: MemoryNode>(mirror: &Mirror<N>) -> u64
    ensures count { result ≡ up (states mirror.now) }
    ensures three { result ≤ 3 }
{
    let [first, second, third] = numbers();
    up([
        mirror.state(first),
        mirror.state(second),
        mirror.state(third),
    ])
}

// Empties the three nodes.
fn wipe_all<N: MemoryNode>(mirror: &mut Mirror<N>)
    ensures { mirror.new ≡ all_wiped mirror.old }
{
    let [first, second, third] = numbers();
    mirror.crash(first);
    mirror.crash(second);
    mirror.crash(third);
}

// The machine does the losses that were written, in their order.
pub(crate) fn record_losses(work: &mut Work, lost: &Lost)
    requires follow { FollowOn work.old.participants work.old.entries
        (losses_from (length work.old.entries) (length (entries_by 0 work.old.entries)) lost.now) }
    requires room { length work.old.entries + length lost.now ≤ work.old.capacity }
    ensures { work.new ≡ worked (losses_from (length work.old.entries) (length (entries_by 0 work.old.entries)) lost.now) work.old }
{
    for i in 0..lost.len() {
        let place = work.length();
        let own = work.next_own(Caller(0));
        work.step(&loss_entry(place, own, lost.node(i)));
    }
}

impl<N: MemoryNode> Issue<N> {
    // Enters an entry for which there is room. The reply, or none where no node was left: the issue is halted then.
    fn enter(&mut self, entry: &Entry) -> Option<Reply>
        requires running { self.old.halt ≡ None }
        requires entry { entry.now ≡ entry_behind self.old.entries entry.now.caller entry.now.event }
        requires caller { (1 ≤ entry.now.caller.0) × (entry.now.caller.0 < 17) }
        requires event { IsEventOf self.old.fixed.participants entry.now.event }
        requires place { HasPlace entry.now.event self.old }
        ensures done { IfSome result (λ reply. TurnDone entry.now.caller entry.now.event reply self.old self.new) }
        ensures halted { result ≡ None → WasHalted entry.now.caller entry.now.event self.old self.new }
        ensures fixed { self.new.fixed ≡ self.old.fixed }
        ensures keeps { KeepsEach (length self.old.entries + 4) self.old.nodes self.new.nodes }
        ensures stands { IsIssueNow self.new }
    {
        entry_numbers(entry);
        let own = self.work.next_own(Caller(0));
        let Some(lost) = write_turn(&mut self.mirror, entry, own) else {
            wipe_all(&mut self.mirror);
            self.halt = Some(Halt {
                caller: entry.caller,
                own: entry.own,
                event: entry.event,
            });
            return None;
        };
        let reply = self.work.step(entry);
        record_losses(&mut self.work, &lost);
        Some(reply)
    }

    /// Enters an event of a gateway, 1 to 16, with its next own number. It is written to the nodes first; a node that fails is
    /// lost, and its loss is recorded behind the event. Then the issue does it, and answers the reply.
    ///
    /// `NoNode`: no node was left that could hold the event, and the issue is halted by it: all nodes are lost and empty, and the
    /// journal is as it was. Or it was halted before, and nothing is changed.
    /// `JournalFull`: with the entry, and a loss of each node that is not lost, the journal could pass its capacity. Nothing is
    /// changed.
    pub fn turn(&mut self, caller: Caller, own: u32, event: Event) -> Result<Reply, TurnStop>
        requires caller { (1 ≤ caller.0) × (caller.0 ≤ 16) }
        requires own { own ≡ length (entries_by caller.0 self.old.entries) }
        requires event { IsEventOf self.old.fixed.participants event }
        ensures turned { HasTurned caller event result self.old self.new }
        ensures full { self.old.halt ≡ None → (HasPlace event self.old → ⊥) → result ≡ Err (JournalFull (length self.old.entries)
            (losses_after self.old event) self.old.fixed.capacity) }
        ensures fixed { self.new.fixed ≡ self.old.fixed }
        ensures keeps { KeepsEach (length self.old.entries + 4) self.old.nodes self.new.nodes }
        ensures stands { IsIssueNow self.new }
    {
        if self.halt.is_some() {
            return Err(TurnStop::NoNode);
        }
        let length = self.work.length();
        let entry = Entry {
            place: length,
            caller,
            own,
            event,
        };
        let up = up_now(&self.mirror) + asks(&entry.event);
        let capacity = self.work.capacity();
        if length + 1 + up > capacity {
            return Err(TurnStop::JournalFull {
                length,
                up,
                capacity,
            });
        }
        match self.enter(&entry) {
            Some(reply) => Ok(reply),
            None => Err(TurnStop::NoNode),
        }
    }
}
