// The calls of the program over a rules file and a script, or a report, in memory.
ghost use Rattle.std.specs.Prelude.{◌≡◌, map, string_bytes, IfOk};
ghost use Rattle.memory_node.specs.declared.node.Label.{Label};
ghost use Rattle.market_top.specs.Command.{file_words};

use super::samples::RULES;
use market_top::{file_words, is_run, run_market, run_plain};
use memory_node::{MemRack, NodeFails, Rack};
use mkt_base::NodeNo;
use mkt_io::{Gate, MemShelf, MemSink, NoGate, Shelf};
use std::alloc::{AllocError, Global};
use std::sync::Wait;
use std::test::Fail;
use std::thread::Threads;

/// What a call is given: its words, with a bar between two; the texts of the files `rules` and `script`; the room of standard output and of
/// standard error; and which calls fail, of the shelf, of both sinks and of nodes, these by issue, node and call.
#[derive(Clone, Copy)]
pub(super) struct Call<'a> {
    pub(super) words: &'a str,
    pub(super) rules: &'a str,
    pub(super) script: &'a str,
    pub(super) out_room: u64,
    pub(super) err_room: u64,
    pub(super) shelf: &'a [u64],
    pub(super) out: &'a [u64],
    pub(super) err: &'a [u64],
    pub(super) nodes: &'a [(u16, u8, u64)],
}

/// A run of an empty script under the sample rules, of which no call fails.
pub(super) const RUN: Call<'static> = Call {
    words: "run|rules|script",
    rules: RULES,
    script: "",
    out_room: 1 << 24,
    err_room: 1 << 10,
    shelf: &[],
    out: &[],
    err: &[],
    nodes: &[],
};

/// What a call answered and wrote.
#[derive(Drop)]
pub(super) struct Answer {
    pub(super) status: u8,
    pub(super) out: String,
    pub(super) err: String,
}

fn texts(alloc: Global, words: &str) -> Result<Vec<String>, AllocError> {
    let mut texts = Vec::new(alloc);
    for word in words.split('|') {
        texts.push(String::from_str(alloc, word)?)?;
    }
    Ok(texts)
}

fn copies(alloc: Global, words: &[String]) -> Result<Vec<String>, AllocError>
    ensures { IfOk result (λ copies. map string_bytes copies.items ≡ map string_bytes words.now) }
{
    let mut copies = Vec::new(alloc);
    for word in words {
        copies.push(String::from_str(alloc, word.as_str())?)?;
    }
    Ok(copies)
}

// The two files, by their names.
fn files(alloc: Global, rules: &str, script: &str) -> Result<Vec<(String, Vec<u8>)>, AllocError> {
    let mut files = Vec::new(alloc);
    let rules = rules.as_bytes().to_vec(alloc)?;
    files.push((String::from_str(alloc, "rules")?, rules))?;
    let script = script.as_bytes().to_vec(alloc)?;
    files.push((String::from_str(alloc, "script")?, script))?;
    Ok(files)
}

// A shelf for these words.
fn shelf_of(alloc: Global, words: &[String], call: Call) -> Result<MemShelf, AllocError>
    ensures { IfOk result (λ shelf. ⟦<MemShelf as Shelf>⟧.names shelf ≡ file_words (map string_bytes words.now)) }
{
    let names = copies(alloc, file_words(words))?;
    let files = files(alloc, call.rules, call.script)?;
    let fails = call.shelf.to_vec(alloc)?;
    Ok(MemShelf::new(names, files, fails))
}

// The answer of a call with this status.
fn answer_with(
    alloc: Global,
    status: u8,
    out: &MemSink,
    err: &MemSink,
) -> Result<Answer, AllocError> {
    let out = String::from_utf8_lossy(alloc, out.bytes())?;
    let err = String::from_utf8_lossy(alloc, err.bytes())?;
    Ok(Answer { status, out, err })
}

/// Makes the call over a rack and a gate.
pub(super) fn answer_over<T: Threads + Wait + Sync, R: Rack, G: Gate + Sync>(
    rt: &T,
    alloc: Global,
    call: Call,
    rack: &mut R,
    gate: &G,
) -> Result<Answer, Fail>
    requires { (l : Label) → R.is_out rack.old l → ⊥ }
{
    let words = texts(alloc, call.words)?;
    let mut shelf = shelf_of(alloc, &words, call)?;
    let out = MemSink::make(alloc, call.out_room, call.out.to_vec(alloc)?);
    let err = MemSink::make(alloc, call.err_room, call.err.to_vec(alloc)?);
    let (Ok(mut out), Ok(mut err)) = (out, err) else {
        return Err("no room")?;
    };
    let status = run_market(
        rt, alloc, &words, &mut shelf, &mut out, &mut err, rack, gate,
    );
    Ok(answer_with(alloc, status.0, &out, &err)?)
}

// The calls of a node that fail, among those of all nodes.
fn calls_of(
    alloc: Global,
    nodes: &[(u16, u8, u64)],
    issue: u16,
    n: u8,
) -> Result<Vec<u64>, AllocError> {
    let mut calls = Vec::new(alloc);
    for (of, node, call) in nodes {
        if *of == issue && *node == n {
            calls.push(*call)?;
        }
    }
    Ok(calls)
}

fn node_fails(alloc: Global, nodes: &[(u16, u8, u64)]) -> Result<Vec<NodeFails>, Fail> {
    let mut fails = Vec::new(alloc);
    for (issue, n) in [(0, 0), (0, 1), (0, 2), (1, 0), (1, 1), (1, 2)] {
        let k = NodeNo::new(n).ok_or("a node")?;
        let calls = calls_of(alloc, nodes, issue, n)?;
        fails.push(NodeFails { issue, k, calls })?;
    }
    Ok(fails)
}

// A rack of which nothing is out.
fn rack_of(alloc: Global, nodes: &[(u16, u8, u64)]) -> Result<MemRack, Fail>
    ensures { IfOk result (λ rack. (l : Label) → ⟦<MemRack as Rack>⟧.is_out rack l → ⊥) }
{
    let fails = node_fails(alloc, nodes)?;
    match MemRack::make(alloc, fails) {
        Ok(rack) => Ok(rack),
        Err(_) => Err("no rack")?,
    }
}

// The records of a node; none where it is not in the rack.
fn records(rack: &MemRack, issue: u16, n: u8) -> Option<&[[u8; 48]]> {
    let k = NodeNo::new(n)?;
    match rack.kept(issue, k) {
        Some(node) => Some(node.records()),
        None => None,
    }
}

// Where both nodes are in the rack, one of them holds a front part of what the other holds.
fn are_alike(rack: &MemRack, issue: u16, a: u8, b: u8) -> bool {
    match (records(rack, issue, a), records(rack, issue, b)) {
        (Some(a), Some(b)) => a.starts_with(b) || b.starts_with(a),
        _ => true,
    }
}

// How many records each node of an issue holds that is in the rack, and the word `apart` where two of them do not begin alike.
fn held_of(alloc: Global, rack: &MemRack, issue: u16) -> Result<String, Fail> {
    let mut text = String::new(alloc);
    for n in 0..3 {
        let held = match records(rack, issue, n) {
            Some(records) => format!(in alloc; "{} ", records.len())?,
            None => String::from_str(alloc, "- ")?,
        };
        text.push_str(held.as_str())?;
    }
    for (a, b) in [(0, 1), (0, 2), (1, 2)] {
        if !are_alike(rack, issue, a, b) {
            text.push_str("apart ")?;
        }
    }
    Ok(text)
}

/// Makes the call over a rack in memory. Tells what was answered, and how many records the nodes of both issues hold that were given back.
pub(super) fn answer_and_nodes<T: Threads + Wait + Sync>(
    rt: &T,
    alloc: Global,
    call: Call,
) -> Result<(Answer, String), Fail> {
    let mut rack = rack_of(alloc, call.nodes)?;
    let answer = answer_over(rt, alloc, call, &mut rack, &NoGate)?;
    let mut held = held_of(alloc, &rack, 0)?;
    held.push_str("| ")?;
    held.push_str(held_of(alloc, &rack, 1)?.as_str())?;
    Ok((answer, held))
}

/// Makes the call of a command that waits for nobody.
pub(super) fn plain_answer(alloc: Global, call: Call) -> Result<Answer, Fail> {
    let words = texts(alloc, call.words)?;
    if is_run(&words) {
        return Err("a command that waits")?;
    }
    let mut shelf = shelf_of(alloc, &words, call)?;
    let mut rack = rack_of(alloc, call.nodes)?;
    let out = MemSink::make(alloc, call.out_room, call.out.to_vec(alloc)?);
    let err = MemSink::make(alloc, call.err_room, call.err.to_vec(alloc)?);
    let (Ok(mut out), Ok(mut err)) = (out, err) else {
        return Err("no room")?;
    };
    let status = run_plain(alloc, &words, &mut shelf, &mut out, &mut err, &mut rack);
    Ok(answer_with(alloc, status.0, &out, &err)?)
}

/// What `audit` answers of a report under rules.
pub(super) fn audited<'a>(alloc: Global, rules: &'a str, report: &'a str) -> Result<String, Fail> {
    let call = Call {
        words: "audit|rules|script",
        rules,
        script: report,
        ..RUN
    };
    Ok(plain_answer(alloc, call)?.out)
}

/// Makes the call over a rack in memory.
pub(super) fn answer_of<T: Threads + Wait + Sync>(
    rt: &T,
    alloc: Global,
    call: Call,
) -> Result<Answer, Fail> {
    let (answer, _held) = answer_and_nodes(rt, alloc, call)?;
    Ok(answer)
}

/// Makes the call, and tells its status, what it wrote to standard output and, behind a bar, what it wrote to standard error.
pub(super) fn told<T: Threads + Wait + Sync>(
    rt: &T,
    alloc: Global,
    call: Call,
) -> Result<String, Fail> {
    let answer = answer_of(rt, alloc, call)?;
    let (out, err) = (answer.out.as_str(), answer.err.as_str());
    Ok(format!(in alloc; "{} {out}|{err}", answer.status)?)
}
