// A mirror whose nodes fail at their calls by number: what each call answers, and what the nodes hold and have counted at
// the end.
ghost use Rattle.std.specs.Prelude.{◌≡◌, ◌+◌, [], length, IfOk, IfSome};
ghost use Rattle.mirror.specs.Replicas.{state_at};

use memory_node::{MemNode, MemoryNode};
use mirror::{Kept, Mirror, NoNode};
use mkt_base::{Caller, Entry, Event, Moment, NodeNo, NodeState};
use std::alloc::Global;
use std::test::Fail;

// How many records a node has room for.
const ROOM: u64 = 8;

// A node of issue 4 whose calls of these numbers fail, each number one digit.
fn node(alloc: Global, n: u8, calls: &str) -> Result<MemNode, Fail>
    ensures empty { IfOk result (λ n. ⟦<MemNode as MemoryNode>⟧.contents n ≡ []) }
    ensures room { IfOk result (λ n. ⟦<MemNode as MemoryNode>⟧.spare n ≡ 8) }
{
    let k = NodeNo::new(n).ok_or("a node")?;
    let mut fails = Vec::new(alloc);
    for digit in calls.as_bytes() {
        if digit.is_ascii_digit() {
            fails.push(u64::from(*digit & 15))?;
        }
    }
    Ok(MemNode::make(alloc, 4, k, ROOM, fails)?)
}

// The names of the nodes that a call lost, as the sum of 1, 2 and 4; 9 where no node was left.
fn answered(answer: Result<Kept, NoNode>) -> u8 {
    match answer {
        Ok(kept) => u8::from(kept.lost[0])
            + 2 * u8::from(kept.lost[1])
            + 4 * u8::from(kept.lost[2]),
        Err(NoNode) => 9,
    }
}

// Does one act on node k: a puts the next entry, c crashes, r lets join, p copies a piece of two records, w all that are
// lacking. What was answered; 8 where the act has no place.
fn done<N: MemoryNode>(mirror: &mut Mirror<N>, act: u8, k: NodeNo, at: Moment) -> u8
    requires first { length mirror.old.first.contents + mirror.old.first.spare ≡ 8 }
    requires second { length mirror.old.second.contents + mirror.old.second.spare ≡ 8 }
    requires third { length mirror.old.third.contents + mirror.old.third.spare ≡ 8 }
    ensures first { length mirror.new.first.contents + mirror.new.first.spare ≡ 8 }
    ensures second { length mirror.new.second.contents + mirror.new.second.spare ≡ 8 }
    ensures third { length mirror.new.third.contents + mirror.new.third.spare ≡ 8 }
{
    let place = mirror.length();
    if act == b'a' && place < ROOM {
        let event = Event::Clock { at };
        return answered(mirror.append(&Entry {
            place,
            caller: Caller(1),
            own: 0,
            event,
        }));
    }
    if act == b'c' {
        mirror.crash(k);
        return 0;
    }
    if act == b'r' && place > 0 && mirror.state(k) == NodeState::Lost {
        mirror.rejoin(k);
        return 0;
    }
    if let NodeState::Joining(_) = mirror.state(k)
        && place <= ROOM
    {
        if act == b'p' {
            return answered(mirror.catch_up(k, 2));
        }
        if act == b'w' {
            return answered(mirror.catch_up(k, 64));
        }
    }
    8
}

// What the acts of a case answer, one digit each.
fn played<N: MemoryNode>(alloc: Global, mirror: &mut Mirror<N>, acts: &[u8]) -> Result<String, Fail>
    requires first { length mirror.old.first.contents + mirror.old.first.spare ≡ 8 }
    requires second { length mirror.old.second.contents + mirror.old.second.spare ≡ 8 }
    requires third { length mirror.old.third.contents + mirror.old.third.spare ≡ 8 }
{
    let at = Moment::new(1).ok_or("a moment")?;
    let mut told = String::new(alloc);
    for i in 0..acts.len() / 2 {
        let k = NodeNo::new(acts[2 * i + 1] & 3).ok_or("a node")?;
        let answer = done(mirror, acts[2 * i], k, at);
        told.push(char::from(b'0' | answer))?;
    }
    Ok(told)
}

// The records are those of the places 0, 1 and so on.
fn are_in_order(records: &[[u8; 48]]) -> bool {
    let mut place = 0u8;
    for rec in records {
        if rec[15] != place {
            return false;
        }
        place = place.wrapping_add(1);
    }
    true
}

// A node at the end: its state, how many records it holds, the most that it held, its faults.
fn told_of_node(alloc: Global, state: NodeState, node: &MemNode) -> Result<String, Fail> {
    let state = match state {
        NodeState::Lost => "L",
        NodeState::Joining(_) => "J",
        NodeState::Synchronised => "S",
    };
    if !are_in_order(node.records()) {
        return Err("a record out of its place")?;
    }
    Ok(format!(in alloc; " {state}{}.{}.{}", node.len(), node.most(), node.faults())?)
}

// The mirror again, from the nodes that it left, with the states of the nodes 0, 1 and 2.
fn again<N: MemoryNode>(mirror: Mirror<N>, states: [NodeState; 3]) -> Mirror<N>
    requires first { state_at states 0 ≡ mirror.first.state }
    requires second { state_at states 1 ≡ mirror.second.state }
    requires third { state_at states 2 ≡ mirror.third.state }
    ensures { result ≡ mirror }
{
    let entries = mirror.length();
    let (a, b, c) = mirror.close();
    Mirror::resume(a, b, c, states, entries)
}

// A mirror of three empty nodes, whose calls of these numbers fail.
fn three(alloc: Global, first: &str, second: &str, third: &str) -> Result<Mirror<MemNode>, Fail>
    ensures first { IfOk result (λ m. length m.first.contents + m.first.spare ≡ 8) }
    ensures second { IfOk result (λ m. length m.second.contents + m.second.spare ≡ 8) }
    ensures third { IfOk result (λ m. length m.third.contents + m.third.spare ≡ 8) }
{
    let a = node(alloc, 0, first)?;
    let b = node(alloc, 1, second)?;
    let c = node(alloc, 2, third)?;
    Ok(Mirror::make(a, b, c))
}

// The states of the nodes 0, 1 and 2.
fn states<N: MemoryNode>(mirror: &Mirror<N>) -> Option<[NodeState; 3]>
    ensures first { IfSome result (λ states. state_at states 0 ≡ mirror.now.first.state) }
    ensures second { IfSome result (λ states. state_at states 1 ≡ mirror.now.second.state) }
    ensures third { IfSome result (λ states. state_at states 2 ≡ mirror.now.third.state) }
{
    let first = mirror.state(NodeNo::new(0)?);
    let second = mirror.state(NodeNo::new(1)?);
    let third = mirror.state(NodeNo::new(2)?);
    Some([first, second, third])
}

// The nodes 0, 1 and 2 at the end.
fn told_of_nodes(
    alloc: Global,
    states: [NodeState; 3],
    a: &MemNode,
    b: &MemNode,
    c: &MemNode,
) -> Result<String, Fail> {
    let mut told = told_of_node(alloc, states[0], a)?;
    told.push_str(told_of_node(alloc, states[1], b)?.as_str())?;
    told.push_str(told_of_node(alloc, states[2], c)?.as_str())?;
    Ok(told)
}

// What becomes of a mirror.
fn told_of_mirror(alloc: Global, mut mirror: Mirror<MemNode>, acts: &str) -> Result<String, Fail>
    requires first { length mirror.first.contents + mirror.first.spare ≡ 8 }
    requires second { length mirror.second.contents + mirror.second.spare ≡ 8 }
    requires third { length mirror.third.contents + mirror.third.spare ≡ 8 }
{
    let mut told = played(alloc, &mut mirror, acts.as_bytes())?;
    let states = states(&mirror).ok_or("a node")?;
    let (a, b, c) = again(mirror, states).close();
    told.push_str(told_of_nodes(alloc, states, &a, &b, &c)?.as_str())?;
    Ok(told)
}

// What a case tells in place of what it is to tell; nothing where they are the same.
fn wrong_of_case(alloc: Global, case: &str) -> Result<String, Fail> {
    let (first, rest) = case.split_once(" | ").ok_or("a case")?;
    let (second, rest) = rest.split_once(" | ").ok_or("a case")?;
    let (third, rest) = rest.split_once(" | ").ok_or("a case")?;
    let (acts, want) = rest.split_once(" | ").ok_or("a case")?;
    let told = told_of_mirror(alloc, three(alloc, first, second, third)?, acts)?;
    if told.as_str() == want {
        return Ok(String::new(alloc));
    }
    Ok(format!(in alloc; "{told} in place of {case}\n")?)
}

// For each node the numbers of its calls that fail; the acts; what they answer, and the nodes 0, 1 and 2 at the end: S, J or
// L for the state, the records that it holds, the most that it held, its faults.
const CASES: &str = "\
# three entries, each node failing at each of the first calls, alone and together
- | - | - | a.a.a. | 000 S3.3.0 S3.3.0 S3.3.0
0 | - | - | a.a.a. | 100 L0.0.1 S3.3.0 S3.3.0
1 | - | - | a.a.a. | 010 L0.1.1 S3.3.0 S3.3.0
2 | - | - | a.a.a. | 001 L0.2.1 S3.3.0 S3.3.0
- | 0 | - | a.a.a. | 200 S3.3.0 L0.0.1 S3.3.0
- | 1 | - | a.a.a. | 020 S3.3.0 L0.1.1 S3.3.0
- | 2 | - | a.a.a. | 002 S3.3.0 L0.2.1 S3.3.0
- | - | 0 | a.a.a. | 400 S3.3.0 S3.3.0 L0.0.1
- | - | 1 | a.a.a. | 040 S3.3.0 S3.3.0 L0.1.1
- | - | 2 | a.a.a. | 004 S3.3.0 S3.3.0 L0.2.1
1 | 1 | - | a.a.a. | 030 L0.1.1 L0.1.1 S3.3.0
1 | - | 1 | a.a.a. | 050 L0.1.1 S3.3.0 L0.1.1
- | 1 | 1 | a.a.a. | 060 S3.3.0 L0.1.1 L0.1.1
0 | 0 | 0 | a.a.a. | 999 L0.0.1 L0.0.1 L0.0.1
1 | 1 | 1 | a.a.a. | 099 L0.1.1 L0.1.1 L0.1.1
2 | 2 | 2 | a.a.a. | 009 L0.2.1 L0.2.1 L0.2.1
0 | 1 | 2 | a.a.a. | 129 L0.0.1 L0.1.1 L0.2.1
2 | 0 | 1 | a.a.a. | 249 L0.2.1 L0.0.1 L0.1.1
# node 0 joins in pieces; its calls from 4 on are copies, those of the others from 5 on reads
- | - | - | a.a.a.a.c0r0a.p0a.p0p0 | 00000000000 S6.6.0 S6.6.0 S6.6.0
4 | - | - | a.a.a.a.c0r0a.p0a.p0p0 | 00000001088 L0.4.1 S6.6.0 S6.6.0
5 | - | - | a.a.a.a.c0r0a.p0a.p0p0 | 00000001088 L0.4.1 S6.6.0 S6.6.0
6 | - | - | a.a.a.a.c0r0a.p0a.p0p0 | 00000000018 L0.4.1 S6.6.0 S6.6.0
- | 4 | - | a.a.a.a.c0r0a.p0a.p0p0 | 00000020000 S6.6.0 L0.4.1 S6.6.0
- | 5 | - | a.a.a.a.c0r0a.p0a.p0p0 | 00000002000 S6.6.0 L0.5.1 S6.6.0
- | 6 | - | a.a.a.a.c0r0a.p0a.p0p0 | 00000002000 S6.6.0 L0.5.1 S6.6.0
- | 7 | - | a.a.a.a.c0r0a.p0a.p0p0 | 00000000200 S6.6.0 L0.5.1 S6.6.0
- | - | 5 | a.a.a.a.c0r0a.p0a.p0p0 | 00000000400 S6.6.0 S6.6.0 L0.5.1
- | - | 4 | a.a.a.a.c0r0a.p0a.p0p0 | 00000040000 S6.6.0 S6.6.0 L0.4.1
- | 5 | 5 | a.a.a.a.c0r0a.p0a.p0p0 | 00000009999 J0.4.0 L0.5.1 L0.5.1
- | 6 | 5 | a.a.a.a.c0r0a.p0a.p0p0 | 00000009999 J1.4.0 L0.5.1 L0.5.1
4 | 4 | - | a.a.a.a.c0r0a.p0a.p0p0 | 00000021088 L0.4.1 L0.4.1 S6.6.0
5 | 6 | - | a.a.a.a.c0r0a.p0a.p0p0 | 00000003088 L0.4.1 L0.5.1 S6.6.0
7 | 8 | 6 | a.a.a.a.c0r0a.p0a.p0p0 | 00000000099 J2.4.0 L0.6.1 L0.6.1
4 | 5 | 5 | a.a.a.a.c0r0a.p0a.p0p0 | 00000009999 J0.4.0 L0.5.1 L0.5.1
# node 1 joins
- | - | - | a.a.a.a.c1r1a.p1a.p1p1 | 00000000000 S6.6.0 S6.6.0 S6.6.0
- | 4 | - | a.a.a.a.c1r1a.p1a.p1p1 | 00000002088 S6.6.0 L0.4.1 S6.6.0
- | 5 | - | a.a.a.a.c1r1a.p1a.p1p1 | 00000002088 S6.6.0 L0.4.1 S6.6.0
5 | - | - | a.a.a.a.c1r1a.p1a.p1p1 | 00000001000 L0.5.1 S6.6.0 S6.6.0
6 | - | - | a.a.a.a.c1r1a.p1a.p1p1 | 00000001000 L0.5.1 S6.6.0 S6.6.0
7 | - | - | a.a.a.a.c1r1a.p1a.p1p1 | 00000000100 L0.5.1 S6.6.0 S6.6.0
- | - | 5 | a.a.a.a.c1r1a.p1a.p1p1 | 00000000400 S6.6.0 S6.6.0 L0.5.1
5 | - | 5 | a.a.a.a.c1r1a.p1a.p1p1 | 00000009999 L0.5.1 J0.4.0 L0.5.1
6 | - | 5 | a.a.a.a.c1r1a.p1a.p1p1 | 00000009999 L0.5.1 J1.4.0 L0.5.1
6 | 5 | - | a.a.a.a.c1r1a.p1a.p1p1 | 00000003088 L0.5.1 L0.4.1 S6.6.0
8 | 7 | 6 | a.a.a.a.c1r1a.p1a.p1p1 | 00000000099 L0.6.1 J2.4.0 L0.6.1
5 | 4 | 5 | a.a.a.a.c1r1a.p1a.p1p1 | 00000009999 L0.5.1 J0.4.0 L0.5.1
# node 2 joins
- | - | - | a.a.a.a.c2r2a.p2a.p2p2 | 00000000000 S6.6.0 S6.6.0 S6.6.0
- | - | 4 | a.a.a.a.c2r2a.p2a.p2p2 | 00000004088 S6.6.0 S6.6.0 L0.4.1
- | - | 5 | a.a.a.a.c2r2a.p2a.p2p2 | 00000004088 S6.6.0 S6.6.0 L0.4.1
5 | - | - | a.a.a.a.c2r2a.p2a.p2p2 | 00000001000 L0.5.1 S6.6.0 S6.6.0
6 | - | - | a.a.a.a.c2r2a.p2a.p2p2 | 00000001000 L0.5.1 S6.6.0 S6.6.0
7 | - | - | a.a.a.a.c2r2a.p2a.p2p2 | 00000000100 L0.5.1 S6.6.0 S6.6.0
- | 5 | - | a.a.a.a.c2r2a.p2a.p2p2 | 00000000200 S6.6.0 L0.5.1 S6.6.0
5 | 5 | - | a.a.a.a.c2r2a.p2a.p2p2 | 00000009999 L0.5.1 L0.5.1 J0.4.0
6 | 5 | - | a.a.a.a.c2r2a.p2a.p2p2 | 00000009999 L0.5.1 L0.5.1 J1.4.0
6 | - | 5 | a.a.a.a.c2r2a.p2a.p2p2 | 00000005088 L0.5.1 S6.6.0 L0.4.1
8 | 6 | 7 | a.a.a.a.c2r2a.p2a.p2p2 | 00000000099 L0.6.1 L0.6.1 J2.4.0
5 | 5 | 4 | a.a.a.a.c2r2a.p2a.p2p2 | 00000009999 L0.5.1 L0.5.1 J0.4.0
# others
- | 5 | - | a.a.a.c2c1r1w1a.c0 | 000000200 L0.4.0 L0.3.1 L0.3.0
- | - | - | r0a.c0r0w0w0 | 800008 S1.1.0 S1.1.0 S1.1.0
- | - | - | c0c1a.c2a. | 00009 L0.0.0 L0.0.0 L0.1.0
- | - | - | a.c0c1r0r1w0w1c2a. | 000000000 S2.2.0 S2.2.0 L0.1.0
- | - | - | a.c0c1r0a.r1p0p1a.c2a. | 00000000000 S4.4.0 S4.4.0 L0.3.0
- | 3 | - | a.c0r0a.c2w0w0a. | 00000999 J1.1.0 L0.2.1 L0.2.0
";

#[test]
fn nodes_fail_at_their_calls(rt: HostRuntime) -> Result<(), Fail> {
    let mut wrong = String::new(rt.alloc());
    for case in CASES.lines() {
        if case.starts_with("#") {
            continue;
        }
        wrong.push_str(wrong_of_case(rt.alloc(), case)?.as_str())?;
    }
    assert_eq!(rt; wrong.as_str(), "");
    Ok(())
}
