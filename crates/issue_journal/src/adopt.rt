// Adoption: an issue that was left is made again of its nodes.
ghost use Rattle.std.specs.Prelude.{◌≡◌, ◌+◌, ◌<◌, ◌≤◌, ◌^◌, ℕ, List, [], ◌∷◌, ◌++◌, true, false, None, length, map, max, vec_capacity, IfErr, IfOk};
ghost use Rattle.record_codec.specs.Entry.{spelling};
ghost use Rattle.node_rules.specs.Nodes.{has_synchronised};
ghost use Rattle.mirror.specs.Replicas.{Replicas, states};
ghost use Rattle.turn_writer.specs.Writing.{AllFailed, HasLossRoom, LossesWritten};
ghost use Rattle.issue_machine.specs.History.{IsHistory};
ghost use Rattle.issue_journal.specs.Adopted.{IsFor, IsGivenBack, IsNode, WasAdopted};
ghost use Rattle.issue_journal.specs.Inside.{IsWork, room_of, work_of};
ghost use Rattle.issue_journal.specs.Issue.{IsIssueNow, IssueNow};
ghost use Rattle.issue_journal.specs.Reading.{IsMet, WasReadBack, lose_if, lost_if};

use crate::reading::{LeftNode, longest, nodes_after, read_all, system_entries};
use crate::turn::{numbers, record_losses};
use crate::work::Work;
use crate::{Issue, IssueRoom};
use issue_machine::Machine;
use memory_node::MemoryNode;
use mirror::Mirror;
use mkt_base::{Entry, NoWatch, NodeNo, NodeState};
use turn_writer::{Lost, write_losses};

/// No node answered any more: each node that was synchronised failed, and is empty. The other nodes and the room are as they were.
#[derive(Drop)]
pub struct NotAdopted<N: MemoryNode> {
    pub room: IssueRoom,
    pub a: N,
    pub b: N,
    pub c: N,
}

// A node that is gone is lost, and noted.
fn lose_gone(states: &mut [NodeState; 3], lost: &mut Lost, gone: bool, k: NodeNo)
    requires { length lost.old < 3 }
    ensures states { states.new ≡ lose_if gone k states.old }
    ensures lost { lost.new ≡ lost_if gone k lost.old }
    ensures more { length lost.new ≤ length lost.old + 1 }
{
    if !gone {
        return;
    }
    states[usize::from(k.n())] = NodeState::Lost;
    lost.push(k);
}

// The mirror of three nodes that were read, without those that are gone, which are noted.
fn mirror_of<N: MemoryNode>(
    first: LeftNode<N>,
    second: LeftNode<N>,
    third: LeftNode<N>,
    end: u64,
    log: &[Entry],
) -> (Mirror<N>, Lost)
    requires few { length log.now + 1 < 2 ^ 64 }
    requires read { (m : Replicas) × WasReadBack log.now end m first second third }
    ensures met { (m : Replicas) → WasReadBack log.now end m first second third → IsMet (map spelling log.now) m result.0 result.1 }
    ensures length { result.0.length ≡ end }
{
    let mut states = nodes_after(log);
    let mut lost = Lost::none();
    let gone = [
        first.is_gone(end, states[0]),
        second.is_gone(end, states[1]),
        third.is_gone(end, states[2]),
    ];
    let [a, b, c] = numbers();
    lose_gone(&mut states, &mut lost, gone[0], a);
    lose_gone(&mut states, &mut lost, gone[1], b);
    lose_gone(&mut states, &mut lost, gone[2], c);
    (
        Mirror::resume(first.node, second.node, third.node, states, end),
        lost,
    )
}

// Writes the losses that were met, where there are any.
fn write_met<N: MemoryNode>(mirror: &mut Mirror<N>, own: u32, lost: &mut Lost) -> bool
    requires room { HasLossRoom lost.old mirror.old }
    requires own { own + 3 < 2 ^ 32 }
    requires some { length lost.old ≡ 0 → has_synchronised (states mirror.old) ≡ true }
    ensures written { result ≡ true → (more : List ℕ) × (lost.new ≡ lost.old ++ more) × (length lost.old ≡ 0 → more ≡ [])
        × LossesWritten own lost.old more mirror.old mirror.new }
    ensures none_left { result ≡ false → AllFailed mirror.old mirror.new }
{
    if lost.len() == 0 {
        let _ = mirror.length();
        return true;
    }
    write_losses(mirror, own, lost)
}

// The room, empty again.
fn emptied(machine: Machine, mut log: Vec<Entry>, capacity: u64, issue: u16) -> IssueRoom
    requires ready { IsWork machine [] (vec_capacity log) capacity }
    requires least { 3 ≤ capacity }
    ensures { result ≡ room_of (work_of machine []) issue }
{
    log.clear();
    IssueRoom {
        work: Work {
            machine,
            log,
            capacity,
        },
        issue,
    }
}

// A machine that did nothing yet does the entries of a history.
fn replayed(mut machine: Machine, log: Vec<Entry>, capacity: u64) -> Work
    requires ready { IsWork machine [] (vec_capacity log) capacity }
    requires history { IsHistory machine.participants log.items }
    requires within { length log.items ≤ capacity }
    ensures { result ≡ work_of machine log.items }
{
    for i in 0..log.len() {
        machine.step(&log[i], &mut NoWatch);
    }
    Work {
        machine,
        log,
        capacity,
    }
}

impl<N: MemoryNode> Issue<N> {
    /// An issue made again of the nodes that another one left, of which one at least is synchronised: it has the journal that was
    /// left, and behind it the loss of each node that failed meanwhile. It reads nodes alone, and takes no memory.
    ///
    /// `NotAdopted`: each synchronised node failed.
    pub fn adopt(room: IssueRoom, a: N, b: N, c: N) -> Result<Issue<N>, NotAdopted<N>>
        requires { (left : IssueNow) × IsFor room left
            × IsNode left.nodes.first (N.contents a) (N.spare a) (N.label a) (N.most a) (N.faults a)
            × IsNode left.nodes.second (N.contents b) (N.spare b) (N.label b) (N.most b) (N.faults b)
            × IsNode left.nodes.third (N.contents c) (N.spare c) (N.label c) (N.most c) (N.faults c) }
        ensures adopted { IfOk result (λ i. (left : IssueNow) → IsFor room left
            → IsNode left.nodes.first (N.contents a) (N.spare a) (N.label a) (N.most a) (N.faults a)
            → IsNode left.nodes.second (N.contents b) (N.spare b) (N.label b) (N.most b) (N.faults b)
            → IsNode left.nodes.third (N.contents c) (N.spare c) (N.label c) (N.most c) (N.faults c)
            → WasAdopted room left i) }
        ensures stands { IfOk result (λ i. IsIssueNow i) }
        ensures room { IfErr result (λ n. n.room ≡ room) }
        ensures given_up { IfErr result (λ n. (left : IssueNow) → IsFor room left
            → IsNode left.nodes.first (N.contents a) (N.spare a) (N.label a) (N.most a) (N.faults a)
            → IsNode left.nodes.second (N.contents b) (N.spare b) (N.label b) (N.most b) (N.faults b)
            → IsNode left.nodes.third (N.contents c) (N.spare c) (N.label c) (N.most c) (N.faults c)
            → IsGivenBack left.nodes.first (N.contents n.a) (N.spare n.a) (N.label n.a) (N.faults n.a)
            × IsGivenBack left.nodes.second (N.contents n.b) (N.spare n.b) (N.label n.b) (N.faults n.b)
            × IsGivenBack left.nodes.third (N.contents n.c) (N.spare n.c) (N.label n.c) (N.faults n.c)) }
    {
        let IssueRoom { work, issue } = room;
        let Work {
            machine,
            mut log,
            capacity,
        } = work;
        let mut first = LeftNode { node: a };
        let mut second = LeftNode { node: b };
        let mut third = LeftNode { node: c };
        let end = longest(&first, &second, &third);
        if !read_all(&mut first, &mut second, &mut third, end, &mut log) {
            return Err(NotAdopted {
                room: emptied(machine, log, capacity, issue),
                a: first.node,
                b: second.node,
                c: third.node,
            });
        }
        let own = system_entries(&log);
        let (mut mirror, mut lost) = mirror_of(first, second, third, end, &log);
        if !write_met(&mut mirror, own, &mut lost) {
            let (a, b, c) = mirror.close();
            return Err(NotAdopted {
                room: emptied(machine, log, capacity, issue),
                a,
                b,
                c,
            });
        }
        let mut work = replayed(machine, log, capacity);
        record_losses(&mut work, &lost);
        Ok(Issue {
            work,
            mirror,
            halt: None,
            issue,
            place: end,
        })
    }
}
