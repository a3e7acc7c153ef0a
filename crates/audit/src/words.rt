// The words of a report's lines that tell something.
ghost use Rattle.std.specs.Prelude.{◌≡◌, ◌<◌, ◌≤◌, length, slice_index, IfOk, MatchResult};
ghost use Rattle.mkt_io.specs.Words.{is_digit};
ghost use Rattle.rules_file.specs.Rules.{IsRules, gateways_in, issues_in};
ghost use Rattle.audit.specs.Reading.{asked_words, caller_of, cancel_words, change_words, clock_words, crash_words, event_words, next_caller, next_event, next_gateway, next_issue, order_words, rejoin_words};

use crate::told::Asked;
use mkt_base::{Caller, Event, Qty};
use mkt_io::{LineFault, Words, next_number};
use rules_file::Rules;
use script_file::{gateway_of, next_kind, next_moment, next_node, next_participant, next_side};

// Whether a word begins with a digit.
pub(crate) fn begins_with_digit(word: &[u8]) -> bool
    ensures { result ≡ is_digit (slice_index word.now 0) }
{
    match word.first() {
        Some(byte) => (b'0'..=b'9').contains(byte),
        None => false,
    }
}

// ---- events

#[tactic(auto, unfolding(crate::specs::Reading::order_words))]
fn order_words(rules: &Rules, words: &mut Words<'_>) -> Result<Event, LineFault>
    ensures { result ≡ order_words rules.now words.old }
{
    let participant = next_participant(rules, words)?;
    let side = next_side(words)?;
    let kind = next_kind(words)?;
    let quantity = next_number(words, 0, u32::MAX)?;
    Ok(Event::Order {
        participant,
        side,
        kind,
        qty: Qty(quantity),
    })
}

#[tactic(auto, unfolding(crate::specs::Reading::change_words))]
fn change_words(rules: &Rules, words: &mut Words<'_>) -> Result<Event, LineFault>
    ensures { result ≡ change_words rules.now words.old }
{
    let participant = next_participant(rules, words)?;
    let target = next_number(words, 0, u32::MAX)?;
    let kind = next_kind(words)?;
    let quantity = next_number(words, 0, u32::MAX)?;
    Ok(Event::Change {
        participant,
        target,
        kind,
        qty: Qty(quantity),
    })
}

#[tactic(auto, unfolding(crate::specs::Reading::cancel_words))]
fn cancel_words(rules: &Rules, words: &mut Words<'_>) -> Result<Event, LineFault>
    ensures { result ≡ cancel_words rules.now words.old }
{
    let participant = next_participant(rules, words)?;
    let target = next_number(words, 0, u32::MAX)?;
    Ok(Event::Cancel {
        participant,
        target,
    })
}

#[tactic(auto, unfolding(crate::specs::Reading::clock_words))]
fn clock_words(words: &mut Words<'_>) -> Result<Event, LineFault>
    ensures { result ≡ clock_words words.old }
{
    let at = next_moment(words)?;
    Ok(Event::Clock { at })
}

#[tactic(auto, unfolding(crate::specs::Reading::crash_words))]
fn crash_words(words: &mut Words<'_>) -> Result<Event, LineFault>
    ensures { result ≡ crash_words words.old }
{
    let node = next_node(words)?;
    Ok(Event::Crash { node })
}

#[tactic(auto, unfolding(crate::specs::Reading::rejoin_words))]
fn rejoin_words(words: &mut Words<'_>) -> Result<Event, LineFault>
    ensures { result ≡ rejoin_words words.old }
{
    let node = next_node(words)?;
    Ok(Event::Rejoin { node })
}

// The event that a word begins.
fn event_words(rules: &Rules, word: &[u8], words: &mut Words<'_>) -> Result<Event, LineFault>
    ensures { result ≡ event_words rules.now word.now words.old }
{
    if word == b"order".as_slice() {
        return order_words(rules, words);
    }
    if word == b"change".as_slice() {
        return change_words(rules, words);
    }
    if word == b"cancel".as_slice() {
        return cancel_words(rules, words);
    }
    if word == b"clock".as_slice() {
        return clock_words(words);
    }
    if word == b"crash".as_slice() {
        return crash_words(words);
    }
    if word == b"rejoin".as_slice() {
        return rejoin_words(words);
    }
    Err(LineFault::Word)
}

// The event that the next words say.
#[tactic(auto, unfolding(crate::specs::Reading::next_event))]
pub(crate) fn next_event(rules: &Rules, words: &mut Words<'_>) -> Result<Event, LineFault>
    ensures { result ≡ next_event rules.now words.old }
{
    match words.wanted() {
        Ok(word) => event_words(rules, word, words),
        Err(fault) => Err(fault),
    }
}

// ---- callers and reads of boards

#[tactic(auto, unfolding(crate::specs::Reading::caller_of))]
fn caller_of(rules: &Rules, word: &[u8]) -> Result<Caller, LineFault>
    requires { IsRules rules.now }
    ensures exact { result ≡ caller_of rules.now word.now }
    ensures known { IfOk result (λ caller. caller.0 ≤ length (gateways_in rules.now)) }
{
    if word == b"-".as_slice() {
        return Ok(Caller(0));
    }
    gateway_of(rules, word)
}

// The caller that the next word names.
#[tactic(auto, unfolding(crate::specs::Reading::next_caller))]
pub(crate) fn next_caller(rules: &Rules, words: &mut Words<'_>) -> Result<Caller, LineFault>
    requires { IsRules rules.now }
    ensures exact { MatchResult result (λ caller. next_caller rules.now words.old ≡ Ok (caller, words.new)) (λ fault.
        next_caller rules.now words.old ≡ Err fault) }
    ensures known { IfOk result (λ caller. caller.0 ≤ length (gateways_in rules.now)) }
{
    let word = words.wanted()?;
    caller_of(rules, word)
}

#[tactic(auto, unfolding(crate::specs::Reading::next_gateway))]
fn next_gateway(rules: &Rules, words: &mut Words<'_>) -> Result<Caller, LineFault>
    requires { IsRules rules.now }
    ensures { MatchResult result (λ gateway. next_gateway rules.now words.old ≡ Ok (gateway, words.new)) (λ fault.
        next_gateway rules.now words.old ≡ Err fault) }
{
    let word = words.wanted()?;
    gateway_of(rules, word)
}

#[tactic(auto, unfolding(crate::specs::Reading::next_issue))]
fn next_issue(rules: &Rules, words: &mut Words<'_>) -> Result<u16, LineFault>
    requires { IsRules rules.now }
    ensures { MatchResult result (λ issue. next_issue rules.now words.old ≡ Ok (issue, words.new)) (λ fault.
        next_issue rules.now words.old ≡ Err fault) }
{
    let word = words.wanted()?;
    rules.issue_of_word(word).ok_or(LineFault::Issue)
}

// The read of a board that the next words say.
#[tactic(auto, unfolding(crate::specs::Reading::asked_words))]
pub(crate) fn asked_words(rules: &Rules, words: &mut Words<'_>) -> Result<Asked, LineFault>
    requires { IsRules rules.now }
    ensures { result ≡ asked_words rules.now words.old }
{
    let line = next_number(words, 0, u32::MAX)?;
    let gateway = next_gateway(rules, words)?;
    let issue = next_issue(rules, words)?;
    let length = next_number(words, 0, u32::MAX)?;
    Ok(Asked {
        line,
        gateway,
        issue,
        length: u64::from(length),
    })
}
