// Issues over nodes in memory whose calls fail by their numbers: what each act answers, and what the journal and the nodes are.
ghost use Rattle.std.specs.Prelude.{◌≡◌, ◌≤◌, ◌<◌, [], length, IfOk};
ghost use Rattle.issue_machine.specs.Journal.{IsEventOf};
ghost use Rattle.rules_file.specs.Rules.{IsRules, participants_in};
ghost use Rattle.journal_tests.specs.Rooms.{IsRoomOf};

use issue_journal::{Issue, IssueRoom};
use memory_node::{MemNode, MemoryNode};
use mkt_base::{
    Caller, Entry, Event, Kind, Moment, NodeNo, NodeState, Participant, Price, Qty, Reply, Side,
    TurnStop,
};
use rules_file::{Rules, read_rules};
use std::alloc::{AllocError, Global};
use std::test::Fail;

const RULES: &str =
    "special_ms = 180000\nsequential_ms = 60000\nticks = [[30000, 10], [1000000000, 50]]\nlimits = [[15000, 3000], [20000, 4000], [30000, 5000], [1000000001, 7000]]\nranges = [[15000, 300], [20000, 400], [30000, 500], [1000000001, 700]]\nsessions = [[\"08:00:00\", \"09:00:00\", \"11:30:00\"], [\"12:05:00\", \"12:30:00\", \"15:00:00\"]]\nrounds = [\"1u\", \"1/3\", \"1/2\", \"all\"]\nparticipants = [\"p1\", \"p2\", \"p3\", \"p4\", \"p5\", \"p6\", \"p7\", \"p8\"]\ngateways = [\"g1\", \"g2\", \"g3\", \"g4\"]\n\n[[issue]]\ncode = \"AAAA\"\nbase = 20000\nunit = 100\n";

/// Rules with one issue.
pub(super) fn rules(alloc: Global) -> Result<Rules, Fail>
    ensures { IfOk result IsRules }
{
    match read_rules(alloc, RULES.as_bytes()) {
        Ok(rules) => Ok(rules),
        Err(_) => Err("the rules are refused")?,
    }
}

// Two rooms for the issue of the rules.
fn rooms(alloc: Global, rules: &Rules, capacity: u64) -> Result<(IssueRoom, IssueRoom), Fail>
    requires rules { IsRules rules.now }
    requires capacity { (3 ≤ capacity) × (capacity ≤ 1000) }
    ensures same { IfOk result (λ made. made.1 ≡ made.0) }
    ensures capacity { IfOk result (λ made. made.0.capacity ≡ capacity) }
    ensures participants { IfOk result (λ made. made.0.participants ≡ length (participants_in rules.now)) }
{
    if rules.issues() == 0 {
        return Err("no issue")?;
    }
    let _issue = rules.issue(0);
    let first = IssueRoom::make(alloc, rules, 0, capacity)?;
    let second = IssueRoom::make(alloc, rules, 0, capacity)?;
    Ok((first, second))
}

// A node whose calls of these numbers fail: words behind one another, with a comma between them.
fn node(alloc: Global, n: u8, capacity: u64, calls: &str) -> Result<MemNode, Fail>
    ensures empty { IfOk result (λ n. ⟦<MemNode as MemoryNode>⟧.contents n ≡ []) }
    ensures room { IfOk result (λ n. ⟦<MemNode as MemoryNode>⟧.spare n ≡ capacity) }
    ensures most { IfOk result (λ n. ⟦<MemNode as MemoryNode>⟧.most n ≡ 0) }
{
    let k = NodeNo::new(n).ok_or("a node")?;
    let mut fails = Vec::new(alloc);
    for digit in calls.as_bytes() {
        if digit.is_ascii_digit() {
            fails.push(u64::from(*digit & 15))?;
        }
    }
    Ok(MemNode::make(alloc, 0, k, capacity, fails)?)
}

// Three nodes whose calls of these numbers fail.
fn nodes(
    alloc: Global,
    capacity: u64,
    calls: [&str; 3],
) -> Result<(MemNode, MemNode, MemNode), Fail>
    ensures first { IfOk result (λ n. (⟦<MemNode as MemoryNode>⟧.contents n.0 ≡ []) × (⟦<MemNode as MemoryNode>⟧.spare n.0 ≡ capacity)
        × (⟦<MemNode as MemoryNode>⟧.most n.0 ≡ 0)) }
    ensures second { IfOk result (λ n. (⟦<MemNode as MemoryNode>⟧.contents n.1 ≡ []) × (⟦<MemNode as MemoryNode>⟧.spare n.1 ≡ capacity)
        × (⟦<MemNode as MemoryNode>⟧.most n.1 ≡ 0)) }
    ensures third { IfOk result (λ n. (⟦<MemNode as MemoryNode>⟧.contents n.2 ≡ []) × (⟦<MemNode as MemoryNode>⟧.spare n.2 ≡ capacity)
        × (⟦<MemNode as MemoryNode>⟧.most n.2 ≡ 0)) }
{
    let a = node(alloc, 0, capacity, calls[0])?;
    let b = node(alloc, 1, capacity, calls[1])?;
    let c = node(alloc, 2, capacity, calls[2])?;
    Ok((a, b, c))
}

/// An issue of so many entries at most, over nodes whose calls of these numbers fail; and another room for it.
pub(super) fn issue(
    alloc: Global,
    rules: &Rules,
    capacity: u64,
    calls: [&str; 3],
) -> Result<(Issue<MemNode>, IssueRoom), Fail>
    requires rules { IsRules rules.now }
    requires capacity { (3 ≤ capacity) × (capacity ≤ 1000) }
    ensures participants { IfOk result (λ made. 3 ≤ made.0.fixed.participants) }
    ensures room { IfOk result (λ made. IsRoomOf made.1 made.0.fixed) }
{
    if rules.participants() < 3 {
        return Err("too few participants")?;
    }
    let (a, b, c) = nodes(alloc, capacity, calls)?;
    let (room, again) = rooms(alloc, rules, capacity)?;
    Ok((Issue::begin(room, a, b, c), again))
}

fn order(participant: u16, side: Side, kind: Kind, qty: u32) -> Event
    requires { participant < 3 }
    ensures { IsEventOf 3 result }
{
    Event::Order {
        participant: Participant(participant),
        side,
        kind,
        qty: Qty(qty),
    }
}

// The event of an act: c the clock, a and d sells at 20010 and 20400, m a buy at the market, x a crash, r a rejoin.
fn event_of(act: u8, k: NodeNo, at: Moment) -> Event
    ensures { IsEventOf 3 result }
{
    match act {
        b'a' => order(1, Side::Sell, Kind::Limit(Price(20010)), 100),
        b'd' => order(2, Side::Sell, Kind::Limit(Price(20400)), 100),
        b'm' => order(0, Side::Buy, Kind::Market, 200),
        b'x' => Event::Crash { node: k },
        b'r' => Event::Rejoin { node: k },
        _ => Event::Clock { at },
    }
}

// Enters the event of an act for the first gateway.
fn enter<N: MemoryNode>(
    issue: &mut Issue<N>,
    act: u8,
    k: NodeNo,
    at: Moment,
) -> Result<Reply, TurnStop>
    requires { 3 ≤ issue.old.fixed.participants }
    ensures { issue.new.fixed ≡ issue.old.fixed }
{
    let own = issue.next_own(Caller(1));
    issue.turn(Caller(1), own, event_of(act, k, at))
}

fn counted(alloc: Global, word: &str, n: u8) -> Result<String, AllocError> {
    format!(in alloc; "{word}{n} ")
}

fn numbered(
    alloc: Global,
    word: &str,
    first: u64,
    second: u64,
    third: u64,
) -> Result<String, AllocError> {
    format!(in alloc; "{word}{first}.{second}.{third} ")
}

// A reply, as it is told here.
fn reply_text(alloc: Global, reply: &Reply) -> Result<String, AllocError> {
    match reply {
        Reply::Accepted {
            place,
            filled,
            left,
        } => numbered(alloc, "", *place, *filled, *left),
        Reply::Moment { .. } => String::from_str(alloc, "clock "),
        Reply::NodeOut(k) => counted(alloc, "out", k.n()),
        Reply::NodeIn(k) => counted(alloc, "in", k.n()),
        _ => String::from_str(alloc, "refused "),
    }
}

// Why an event was not entered.
fn stop_text(alloc: Global, stop: &TurnStop) -> Result<String, AllocError> {
    match stop {
        TurnStop::NoNode => String::from_str(alloc, "none "),
        TurnStop::JournalFull {
            length,
            up,
            capacity,
        } => numbered(alloc, "full", *length, *up, *capacity),
    }
}

fn answer_text(alloc: Global, answer: &Result<Reply, TurnStop>) -> Result<String, AllocError> {
    match answer {
        Ok(reply) => reply_text(alloc, reply),
        Err(stop) => stop_text(alloc, stop),
    }
}

// An entry: caller, own number, and its event by the letter of its act.
fn entry_text(alloc: Global, entry: &Entry) -> Result<String, AllocError> {
    let caller = entry.caller.0;
    let own = entry.own;
    match entry.event {
        Event::Clock { .. } => format!(in alloc; " {caller}.{own}c"),
        Event::Crash { node } => format!(in alloc; " {caller}.{own}x{}", node.n()),
        Event::Rejoin { node } => format!(in alloc; " {caller}.{own}r{}", node.n()),
        _ => format!(in alloc; " {caller}.{own}o"),
    }
}

// The journal of an issue, of a long one only how many entries it has; and how it ended.
fn journal_text<N: MemoryNode>(alloc: Global, issue: &Issue<N>) -> Result<String, AllocError> {
    let length = issue.length();
    if length > 20 {
        return format!(in alloc; " {length} entries");
    }
    let mut text = String::new(alloc);
    for at in 0..length {
        text.push_str(entry_text(alloc, &issue.entry(at))?.as_str())?;
    }
    if issue.halted().is_some() {
        text.push_str(" halted")?;
    }
    Ok(text)
}

/// Enters the events of acts, each of two bytes: its letter and its node. What they answer.
pub(super) fn played<N: MemoryNode>(
    alloc: Global,
    issue: &mut Issue<N>,
    acts: &[u8],
) -> Result<String, Fail>
    requires { 3 ≤ issue.old.fixed.participants }
    ensures { issue.new.fixed ≡ issue.old.fixed }
{
    let at = Moment::new(32_400_000).ok_or("a moment")?;
    let mut told = String::new(alloc);
    for i in 0..acts.len() / 2 {
        let k = NodeNo::new(acts[2 * i + 1] & 3).ok_or("a node")?;
        let answer = enter(issue, acts[2 * i], k, at);
        told.push_str(answer_text(alloc, &answer)?.as_str())?;
    }
    Ok(told)
}

fn state_text<N: MemoryNode>(issue: &Issue<N>, k: NodeNo) -> &'static str {
    match issue.node(k) {
        NodeState::Lost => "L",
        NodeState::Joining(_) => "J",
        NodeState::Synchronised => "S",
    }
}

// The states of the nodes.
fn states_text<N: MemoryNode>(alloc: Global, issue: &Issue<N>) -> Result<String, Fail> {
    let mut text = String::new(alloc);
    for n in 0..3u8 {
        let k = NodeNo::new(n).ok_or("a node")?;
        text.push_str(state_text(issue, k))?;
    }
    Ok(text)
}

// What the acts answer, the journal, and the states of the nodes.
fn acted<N: MemoryNode>(alloc: Global, issue: &mut Issue<N>, acts: &str) -> Result<String, Fail>
    requires { 3 ≤ issue.old.fixed.participants }
{
    let answers = played(alloc, issue, acts.as_bytes())?;
    let journal = journal_text(alloc, issue)?;
    let states = states_text(alloc, issue)?;
    Ok(format!(in alloc; "{answers}|{journal} | {states}")?)
}

// A node: the records that it holds, the most that it held, its faults.
fn node_text(alloc: Global, node: &MemNode) -> Result<String, AllocError> {
    format!(in alloc; "{}.{}.{}", node.len(), node.most(), node.faults())
}

/// What was told, and behind it the nodes.
pub(super) fn nodes_text(
    alloc: Global,
    told: Result<String, Fail>,
    a: &MemNode,
    b: &MemNode,
    c: &MemNode,
) -> Result<String, Fail> {
    let told = told?;
    let a = node_text(alloc, a)?;
    let b = node_text(alloc, b)?;
    let c = node_text(alloc, c)?;
    Ok(format!(in alloc; "{told} {a} {b} {c}")?)
}

/// What the acts answer, the journal, the states of the nodes; and when the issue is closed, what they hold.
pub(super) fn told_of_issue(
    alloc: Global,
    mut issue: Issue<MemNode>,
    acts: &str,
) -> Result<String, Fail>
    requires { 3 ≤ issue.fixed.participants }
{
    let told = acted(alloc, &mut issue, acts);
    let closed = issue.close();
    nodes_text(alloc, told, &closed.a, &closed.b, &closed.c)
}
