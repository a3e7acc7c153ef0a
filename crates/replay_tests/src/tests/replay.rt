// The call of the program over a rules file and a script in memory.
ghost use Rattle.std.specs.Prelude.{◌≡◌, map, string_bytes, IfOk};

use market_top::{file_words, is_run, run_plain};
use memory_node::{MemRack, NodeFails};
use mkt_base::NodeNo;
use mkt_io::{MemShelf, MemSink};
use std::alloc::{AllocError, Global};
use std::test::Fail;

// What stands in a rules file before its issues.
const HEAD: &str =
    "special_ms = 180000\nsequential_ms = 60000\nticks = [[30000, 10], [1000000000, 50]]\nlimits = [[15000, 3000], [20000, 4000], [30000, 5000], [1000000001, 7000]]\nranges = [[15000, 300], [20000, 400], [30000, 500], [1000000001, 700]]\nsessions = [[\"08:00:00\", \"09:00:00\", \"11:30:00\"], [\"12:05:00\", \"12:30:00\", \"15:00:00\"]]\nrounds = [\"1u\", \"1/3\", \"1/2\", \"all\"]\nparticipants = [\"p1\", \"p2\", \"p3\", \"p4\", \"p5\", \"p6\", \"p7\", \"p8\"]\ngateways = [\"g1\", \"g2\", \"g3\", \"g4\"]\n";

const FIRST: &str = "\n[[issue]]\ncode = \"AAAA\"\nbase = 20000\nunit = 100\n";

const SECOND: &str = "\n[[issue]]\ncode = \"BBBB\"\nbase = 12000\nunit = 100\n";

/// What a call answered and wrote, and what the nodes of the first issue hold after it.
#[derive(Drop)]
pub(super) struct Answer {
    pub(super) status: u8,
    pub(super) out: String,
    pub(super) err: String,
    pub(super) held: String,
}

/// Which calls fail: of the shelf, of standard output, of standard error, and of the nodes of the first issue, by node and call.
#[derive(Clone, Copy)]
pub(super) struct Fails<'a> {
    pub(super) shelf: &'a [u64],
    pub(super) out: &'a [u64],
    pub(super) err: &'a [u64],
    pub(super) nodes: &'a [(u8, u64)],
}

pub(super) const NONE: Fails<'static> = Fails {
    shelf: &[],
    out: &[],
    err: &[],
    nodes: &[],
};

/// Rules with so many issues, one or two.
pub(super) fn rules_of(alloc: Global, issues: usize) -> Result<String, AllocError> {
    let mut text = String::from_str(alloc, HEAD)?;
    text.push_str(FIRST)?;
    if issues > 1 {
        text.push_str(SECOND)?;
    }
    Ok(text)
}

fn texts(alloc: Global, words: &[&str]) -> Result<Vec<String>, AllocError> {
    let mut texts = Vec::new(alloc);
    for word in words {
        texts.push(String::from_str(alloc, word)?)?;
    }
    Ok(texts)
}

fn copies(alloc: Global, words: &[String]) -> Result<Vec<String>, AllocError>
    ensures { IfOk result (λ copies. map string_bytes copies.items ≡ map string_bytes words.now) }
{
    let mut copies = Vec::new(alloc);
    for word in words {
        copies.push(String::from_str(alloc, word.as_str())?)?;
    }
    Ok(copies)
}

// The calls of a node that fail, among those of all nodes.
fn calls_of(alloc: Global, nodes: &[(u8, u64)], n: u8) -> Result<Vec<u64>, AllocError> {
    let mut calls = Vec::new(alloc);
    for (node, call) in nodes {
        if *node == n {
            calls.push(*call)?;
        }
    }
    Ok(calls)
}

fn node_fails(alloc: Global, nodes: &[(u8, u64)]) -> Result<Vec<NodeFails>, Fail> {
    let mut fails = Vec::new(alloc);
    for n in 0..3 {
        let k = NodeNo::new(n).ok_or("a node")?;
        let calls = calls_of(alloc, nodes, n)?;
        fails.push(NodeFails { issue: 0, k, calls })?;
    }
    Ok(fails)
}

// The records of a node of the first issue; none where the node is not in the rack.
fn records(rack: &MemRack, n: u8) -> Option<&[[u8; 48]]> {
    let k = NodeNo::new(n)?;
    match rack.kept(0, k) {
        Some(node) => Some(node.records()),
        None => None,
    }
}

// One of two nodes holds a front part of what the other holds.
fn are_alike(rack: &MemRack, a: u8, b: u8) -> bool {
    match (records(rack, a), records(rack, b)) {
        (Some(a), Some(b)) => a.starts_with(b) || b.starts_with(a),
        _ => false,
    }
}

// How many records each node of the first issue holds, and the word `apart` where two of them do not begin alike.
fn held(alloc: Global, rack: &MemRack) -> Result<String, Fail> {
    let mut text = String::new(alloc);
    for n in 0..3 {
        let count = records(rack, n).map_or(0, |records| records.len());
        let number = format!(in alloc; " {count}")?;
        text.push_str(number.as_str())?;
    }
    if !are_alike(rack, 0, 1) || !are_alike(rack, 0, 2) || !are_alike(rack, 1, 2) {
        text.push_str(" apart")?;
    }
    Ok(text)
}

/// Runs the words over a shelf with the files `rules` and `script`.
pub(super) fn answer_of(
    alloc: Global,
    words: &[&str],
    rules: &[u8],
    script: &[u8],
    fails: Fails,
) -> Result<Answer, Fail> {
    let words = texts(alloc, words)?;
    let names = copies(alloc, file_words(&words))?;
    let mut files = Vec::new(alloc);
    files.push((String::from_str(alloc, "rules")?, rules.to_vec(alloc)?))?;
    files.push((String::from_str(alloc, "script")?, script.to_vec(alloc)?))?;
    let mut shelf = MemShelf::new(names, files, fails.shelf.to_vec(alloc)?);
    // Eight bytes of the report for each of the script.
    let room = (script.len() as u64)
        .saturating_mul(8)
        .saturating_add(1 << 16);
    let mut out = MemSink::make(alloc, room, fails.out.to_vec(alloc)?).map_err(|_| "no room")?;
    let mut err = MemSink::make(alloc, 1 << 10, fails.err.to_vec(alloc)?).map_err(|_| "no room")?;
    let mut rack = MemRack::make(alloc, node_fails(alloc, fails.nodes)?).map_err(|_| "no rack")?;
    if is_run(&words) {
        return Err("no words for this call")?;
    }
    let status = run_plain(alloc, &words, &mut shelf, &mut out, &mut err, &mut rack);
    Ok(Answer {
        status: status.0,
        out: String::from_utf8_lossy(alloc, out.bytes())?,
        err: String::from_utf8_lossy(alloc, err.bytes())?,
        held: held(alloc, &rack)?,
    })
}

/// Replays a script under rules with so many issues.
pub(super) fn replay(
    alloc: Global,
    issues: usize,
    script: &[u8],
    fails: Fails,
) -> Result<Answer, Fail> {
    let rules = rules_of(alloc, issues)?;
    answer_of(
        alloc,
        &["replay", "rules", "script"],
        rules.as_bytes(),
        script,
        fails,
    )
}
