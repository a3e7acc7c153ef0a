// Answers, passes, boards and journals as text.
use issue_journal::Issue;
use memory_node::MemNode;
use mkt_base::{Board, Entry, Event, Halt, Phase, Price};
use std::alloc::{AllocError, Global};
use turn_cell::Pass;

/// A text, where there was memory for it.
pub(super) type Text = Result<String, AllocError>;

/// The one text behind the other.
pub(super) fn joined(text: Text, more: Text) -> Text {
    let mut text = text?;
    text.push_str(more?.as_str())?;
    Ok(text)
}

// The kind of an answer in a word.
fn word(kind: u64) -> &'static str {
    match kind {
        1 => "accepted",
        2 => "changed",
        3 => "cancelled",
        4 => "clock",
        5 => "out",
        6 => "in",
        7 => "refused",
        8 => "none",
        9 => "full",
        _ => "busy",
    }
}

/// An answer: its kind and its three numbers.
pub(super) fn answer_text(alloc: Global, numbers: [u64; 4]) -> Text {
    let [kind, first, second, third] = numbers;
    let word = word(kind);
    format!(in alloc; "{word}{first}.{second}.{third} ")
}

fn phase_word(phase: &Phase) -> &'static str {
    match phase {
        Phase::Idle => "idle",
        Phase::Collecting => "collecting",
        Phase::Trading => "trading",
    }
}

// A price in tenths of a yen, 0 for none.
fn price_number(price: &Option<Price>) -> u32 {
    match price {
        Some(price) => price.0,
        None => 0,
    }
}

/// A board: its length, the last price, the best prices of both sides, the phase, and whether a quote stands.
pub(super) fn board_text(alloc: Global, board: &Board) -> Text {
    let length = board.length;
    let last = board.last.0;
    let bid = price_number(&board.bid);
    let ask = price_number(&board.ask);
    let phase = phase_word(&board.phase);
    let quote = if board.quote.is_some() { "quoted" } else { "-" };
    format!(in alloc; "board{length}.{last}.{bid}.{ask}.{phase}.{quote} ")
}

// An entry, or what would have been one: caller, own number and event.
fn entry_text(alloc: Global, caller: u16, own: u32, event: &Event) -> Text {
    match event {
        Event::Clock { at } => format!(in alloc; " {caller}.{own}c{}", at.ms() / 100_000),
        Event::Crash { node } => format!(in alloc; " {caller}.{own}x{}", node.n()),
        Event::Rejoin { node } => format!(in alloc; " {caller}.{own}r{}", node.n()),
        Event::Order { participant, .. } => {
            format!(in alloc; " {caller}.{own}o{}", participant.0)
        }
        _ => format!(in alloc; " {caller}.{own}-"),
    }
}

fn halt_text(alloc: Global, halt: &Option<Halt>) -> Text {
    match halt {
        Some(halt) => entry_text(alloc, halt.caller.0, halt.own, &halt.event),
        None => String::from_str(alloc, " -"),
    }
}

/// What a pass says: how many entries it has seen, how many it has made, how many passes it has met, and the halt that it has seen.
pub(super) fn pass_text(alloc: Global, pass: &Pass<Issue<MemNode>>) -> Text {
    let seen = pass.seen();
    let own = pass.next_own();
    let met = pass.met();
    let halt = halt_text(alloc, &pass.halted())?;
    format!(in alloc; "| {seen}.{own}.{met}{halt} |")
}

// The entries of a journal.
fn entries_text(alloc: Global, journal: &[Entry]) -> Text {
    let mut text = String::new(alloc);
    for entry in journal {
        text.push_str(entry_text(alloc, entry.caller.0, entry.own, &entry.event)?.as_str())?;
    }
    Ok(text)
}

/// Closes an issue: its journal, and its halt.
pub(super) fn issue_text(alloc: Global, issue: Issue<MemNode>) -> Text {
    let closed = issue.close();
    joined(
        entries_text(alloc, closed.log.as_slice()),
        halt_text(alloc, &closed.halt),
    )
}
