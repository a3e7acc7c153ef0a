// The words of a gateway's line, one after another.
ghost use Rattle.std.specs.Prelude.{◌≡◌, ◌<◌, ◌≤◌, length, IfOk, IfSome, MatchResult};
ghost use Rattle.rules_file.specs.Rules.{IsRules, gateways_in, issues_in, participants_in};
ghost use Rattle.script_file.specs.Words.{AreIssues, IsGateway, gateway_of, issues_of, kind_of, next_issues, next_kind, next_moment, next_node, next_own, next_participant, next_side};

use crate::reader::Reader;
use mkt_base::{Caller, Kind, Moment, NodeNo, Participant, Price, Side};
use mkt_io::{LineFault, Words, next_number, number_in, side_of, time_word};
use rules_file::Rules;

// The issues that a line is for.
#[derive(Clone, Copy)]
pub(crate) enum Issues {
    // The issue of this number.
    One(u16),
    // Every issue, by `*`.
    Each,
}

/// The caller that a gateway is, by its name: the n-th gateway of the rules is caller n, counted from 1.
#[tactic(auto, unfolding(crate::specs::Words::gateway_of))]
#[inline(always)]
pub fn gateway_of(rules: &Rules, word: &[u8]) -> Result<Caller, LineFault>
    requires { IsRules rules.now }
    ensures exact { result ≡ gateway_of rules.now word.now }
    ensures known { IfOk result (IsGateway rules.now) }
{
    let number = rules.gateway_of_word(word).ok_or(LineFault::Gateway)?;
    Ok(Caller(number + 1))
}

#[tactic(auto, unfolding(crate::specs::Words::issues_of))]
#[inline(always)]
fn issues_of(rules: &Rules, word: &[u8]) -> Result<Issues, LineFault>
    requires { IsRules rules.now }
    ensures exact { result ≡ issues_of rules.now word.now }
    ensures known { IfOk result (AreIssues rules.now) }
{
    if word == b"*".as_slice() {
        return Ok(Issues::Each);
    }
    let number = rules.issue_of_word(word).ok_or(LineFault::Issue)?;
    Ok(Issues::One(number))
}

// The issues that the next word names.
#[tactic(auto, unfolding(crate::specs::Words::next_issues))]
#[inline(always)]
pub(crate) fn next_issues(rules: &Rules, words: &mut Words<'_>) -> Result<Issues, LineFault>
    requires { IsRules rules.now }
    ensures exact { MatchResult result (λ issues. next_issues rules.now words.old ≡ Ok (issues, words.new)) (λ fault.
        next_issues rules.now words.old ≡ Err fault) }
    ensures known { IfOk result (AreIssues rules.now) }
{
    let word = words.wanted()?;
    issues_of(rules, word)
}

/// Takes the next word, as the name of a participant of the rules.
#[tactic(auto, unfolding(crate::specs::Words::next_participant))]
#[inline(always)]
pub fn next_participant(rules: &Rules, words: &mut Words<'_>) -> Result<Participant, LineFault>
    ensures exact { MatchResult result (λ participant. next_participant rules.now words.old ≡ Ok (participant, words.new))
        (λ fault. next_participant rules.now words.old ≡ Err fault) }
    ensures known { IfOk result (λ participant. participant.0 < length (participants_in rules.now)) }
{
    let word = words.wanted()?;
    let number = rules
        .participant_of_word(word)
        .ok_or(LineFault::Participant)?;
    Ok(Participant(number))
}

/// Takes the next word, as a side: `buy` or `sell`.
#[tactic(auto, unfolding(crate::specs::Words::next_side))]
#[inline(always)]
pub fn next_side(words: &mut Words<'_>) -> Result<Side, LineFault>
    ensures { MatchResult result (λ side. next_side words.old ≡ Ok (side, words.new)) (λ fault. next_side words.old ≡
        Err fault) }
{
    let word = words.wanted()?;
    side_of(word)
}

#[tactic(auto, unfolding(crate::specs::Words::kind_of))]
#[inline(always)]
fn kind_of(word: &[u8]) -> Result<Kind, LineFault>
    ensures { result ≡ kind_of word.now }
{
    if word == b"market".as_slice() {
        return Ok(Kind::Market);
    }
    let price = number_in(word, 0, u32::MAX)?;
    Ok(Kind::Limit(Price(price)))
}

/// Takes the next word, as a kind of order: `market`, or a limit price in tenths of a yen.
#[tactic(auto, unfolding(crate::specs::Words::next_kind))]
#[inline(always)]
pub fn next_kind(words: &mut Words<'_>) -> Result<Kind, LineFault>
    ensures { MatchResult result (λ kind. next_kind words.old ≡ Ok (kind, words.new)) (λ fault. next_kind words.old ≡
        Err fault) }
{
    let word = words.wanted()?;
    kind_of(word)
}

// The own number that the next word says, which is that of an earlier order of the gateway in the issue.
#[tactic(auto, unfolding(crate::specs::Words::next_own))]
#[inline(always)]
pub(crate) fn next_own(
    reader: &Reader,
    gateway: Caller,
    issue: u16,
    words: &mut Words<'_>,
) -> Result<u32, LineFault>
    requires gateway { gateway.0 ≤ 16 }
    requires issue { issue < 64 }
    ensures { MatchResult result (λ own. next_own reader.now.lines gateway issue words.old ≡ Ok (own, words.new)) (λ
        fault. next_own reader.now.lines gateway issue words.old ≡ Err fault) }
{
    let own = next_number(words, 0, u32::MAX)?;
    if reader.is_order_of(gateway, issue, own) {
        Ok(own)
    } else {
        Err(LineFault::Own)
    }
}

/// Takes the next word, as the number of a node, 0 to 2.
#[tactic(auto, unfolding(crate::specs::Words::next_node))]
#[inline(always)]
pub fn next_node(words: &mut Words<'_>) -> Result<NodeNo, LineFault>
    ensures exact { MatchResult result (λ node. next_node words.old ≡ Ok (node, words.new)) (λ fault. next_node words.old ≡
        Err fault) }
    ensures a_node { IfOk result (λ node. node < 3) }
{
    let number = next_number(words, 0, 2)?;
    let Some(node) = NodeNo::new(number as u8) else {
        unreachable!()
    };
    Ok(node)
}

/// Takes the next word, as a moment of the day.
#[tactic(auto, unfolding(crate::specs::Words::next_moment))]
#[inline(always)]
pub fn next_moment(words: &mut Words<'_>) -> Result<Moment, LineFault>
    ensures exact { MatchResult result (λ moment. next_moment words.old ≡ Ok (moment, words.new)) (λ fault. next_moment
        words.old ≡ Err fault) }
    ensures within_the_day { IfOk result (λ moment. moment < 86400000) }
{
    let word = words.wanted()?;
    time_word(word).ok_or(LineFault::Number)
}
