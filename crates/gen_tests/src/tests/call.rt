// The call of the program over a rules file and a script, or a report, in memory.
ghost use Rattle.std.specs.Prelude.{◌≡◌, map, string_bytes, IfOk};
ghost use Rattle.market_top.specs.Command.{file_words};

use market_top::{file_words, is_run, run_plain};
use memory_node::{MemRack, NodeFails};
use mkt_base::NodeNo;
use mkt_io::{MemShelf, MemSink, Shelf};
use std::alloc::{AllocError, Global};
use std::test::Fail;

/// What a call is given: its words, with a bar between two; the bytes of the files `rules` and `script`; and which calls fail, of standard output and of the
/// nodes of the first issue, these by node and call.
#[derive(Clone, Copy)]
pub(super) struct Call<'a> {
    pub(super) words: &'a str,
    pub(super) rules: &'a [u8],
    pub(super) script: &'a [u8],
    pub(super) out: &'a [u64],
    pub(super) nodes: &'a [(u8, u64)],
}

/// One empty word, and empty files; no call fails.
pub(super) const NONE: Call<'static> = Call {
    words: "",
    rules: b"",
    script: b"",
    out: &[],
    nodes: &[],
};

/// What a call answered and wrote.
#[derive(Drop)]
pub(super) struct Answer {
    pub(super) status: u8,
    pub(super) out: String,
    pub(super) err: String,
}

// How many bytes of standard output there is room for.
const ROOM: u64 = 1 << 23;

fn texts(alloc: Global, words: &str) -> Result<Vec<String>, AllocError> {
    let mut texts = Vec::new(alloc);
    for word in words.split('|') {
        texts.push(String::from_str(alloc, word)?)?;
    }
    Ok(texts)
}

fn copies(alloc: Global, words: &[String]) -> Result<Vec<String>, AllocError>
    ensures { IfOk result (λ copies. map string_bytes copies.items ≡ map string_bytes words.now) }
{
    let mut copies = Vec::new(alloc);
    for word in words {
        copies.push(String::from_str(alloc, word.as_str())?)?;
    }
    Ok(copies)
}

// The two files, by their names.
fn files(alloc: Global, rules: &[u8], script: &[u8]) -> Result<Vec<(String, Vec<u8>)>, AllocError> {
    let mut files = Vec::new(alloc);
    files.push((String::from_str(alloc, "rules")?, rules.to_vec(alloc)?))?;
    files.push((String::from_str(alloc, "script")?, script.to_vec(alloc)?))?;
    Ok(files)
}

// A shelf for these words.
fn shelf_of(
    alloc: Global,
    words: &[String],
    rules: &[u8],
    script: &[u8],
) -> Result<MemShelf, AllocError>
    ensures { IfOk result (λ shelf. ⟦<MemShelf as Shelf>⟧.names shelf ≡ file_words (map string_bytes words.now)) }
{
    let names = copies(alloc, file_words(words))?;
    let files = files(alloc, rules, script)?;
    Ok(MemShelf::new(names, files, Vec::new(alloc)))
}

// The calls of a node that fail, among those of all nodes.
fn calls_of(alloc: Global, nodes: &[(u8, u64)], n: u8) -> Result<Vec<u64>, AllocError> {
    let mut calls = Vec::new(alloc);
    for (node, call) in nodes {
        if *node == n {
            calls.push(*call)?;
        }
    }
    Ok(calls)
}

fn node_fails(alloc: Global, nodes: &[(u8, u64)]) -> Result<Vec<NodeFails>, Fail> {
    let mut fails = Vec::new(alloc);
    for n in 0..3 {
        let k = NodeNo::new(n).ok_or("a node")?;
        let calls = calls_of(alloc, nodes, n)?;
        fails.push(NodeFails { issue: 0, k, calls })?;
    }
    Ok(fails)
}

// The status of a call, over a rack of its own.
fn status_of(
    alloc: Global,
    words: &[String],
    shelf: &mut MemShelf,
    out: &mut MemSink,
    err: &mut MemSink,
    fails: Vec<NodeFails>,
) -> Result<u8, Fail>
    requires { ⟦<MemShelf as Shelf>⟧.names shelf.old ≡ file_words (map string_bytes words.now) }
{
    let mut rack = MemRack::make(alloc, fails).map_err(|_| "no rack")?;
    if is_run(words) {
        return Err("no words for this call")?;
    }
    Ok(run_plain(alloc, words, shelf, out, err, &mut rack).0)
}

// The answer of a call with this status.
fn answer_with(
    alloc: Global,
    status: u8,
    out: &MemSink,
    err: &MemSink,
) -> Result<Answer, AllocError> {
    let out = String::from_utf8_lossy(alloc, out.bytes())?;
    let err = String::from_utf8_lossy(alloc, err.bytes())?;
    Ok(Answer { status, out, err })
}

/// Makes the call.
pub(super) fn answer_of(alloc: Global, call: Call) -> Result<Answer, Fail> {
    let words = texts(alloc, call.words)?;
    let fails = node_fails(alloc, call.nodes)?;
    let mut shelf = shelf_of(alloc, &words, call.rules, call.script)?;
    let mut out = MemSink::make(alloc, ROOM, call.out.to_vec(alloc)?).map_err(|_| "no room")?;
    let mut err = MemSink::make(alloc, 1 << 10, Vec::new(alloc)).map_err(|_| "no room")?;
    let status = status_of(alloc, &words, &mut shelf, &mut out, &mut err, fails)?;
    Ok(answer_with(alloc, status, &out, &err)?)
}

/// Makes the call, and tells its status, what it wrote to standard output and, behind a bar, what it wrote to standard error.
pub(super) fn told(alloc: Global, call: Call) -> Result<String, Fail> {
    let answer = answer_of(alloc, call)?;
    let (out, err) = (answer.out.as_str(), answer.err.as_str());
    Ok(format!(in alloc; "{} {out}|{err}", answer.status)?)
}
