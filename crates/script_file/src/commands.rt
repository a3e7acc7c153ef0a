// The commands of a gateway, each with the words that follow it.
ghost use Rattle.std.specs.Prelude.{◌≡◌, ◌<◌, ◌≤◌, IfOk, MatchResult};
ghost use Rattle.rules_file.specs.Rules.{IsRules};
ghost use Rattle.script_file.specs.Commands.{IsActOf, act_words, cancel_words, change_words, clock_words, command_of, crash_words, next_command, order_words, rejoin_words, show_words};
ghost use Rattle.script_file.specs.Words.{AreIssues};

use crate::reader::Reader;
use crate::words::{
    Issues, next_kind, next_moment, next_node, next_own, next_participant, next_side,
};
use mkt_base::{Act, Caller, Event, Qty};
use mkt_io::{LineFault, Words, next_number};
use rules_file::Rules;

// What a gateway's line may ask for.
#[derive(Clone, Copy)]
pub(crate) enum Command {
    Order,
    Change,
    Cancel,
    Clock,
    Crash,
    Rejoin,
    Show,
}

#[inline(always)]
fn command_of(word: &[u8]) -> Result<Command, LineFault>
    ensures { result ≡ command_of word.now }
{
    match word {
        b"order" => Ok(Command::Order),
        b"change" => Ok(Command::Change),
        b"cancel" => Ok(Command::Cancel),
        b"clock" => Ok(Command::Clock),
        b"crash" => Ok(Command::Crash),
        b"rejoin" => Ok(Command::Rejoin),
        b"show" => Ok(Command::Show),
        _ => Err(LineFault::Word),
    }
}

// The command that the next word names.
#[tactic(auto, unfolding(crate::specs::Commands::next_command))]
#[inline(always)]
pub(crate) fn next_command(words: &mut Words<'_>) -> Result<Command, LineFault>
    ensures { MatchResult result (λ command. next_command words.old ≡ Ok (command, words.new)) (λ fault. next_command
        words.old ≡ Err fault) }
{
    let word = words.wanted()?;
    command_of(word)
}

// After `order`: P buy K QTY, or P sell K QTY.
#[tactic(auto, unfolding(crate::specs::Commands::order_words))]
#[inline(always)]
fn order_words(rules: &Rules, words: &mut Words<'_>) -> Result<Act, LineFault>
    ensures exact { result ≡ order_words rules.now words.old }
    ensures sound { IfOk result (IsActOf rules.now) }
{
    let participant = next_participant(rules, words)?;
    let side = next_side(words)?;
    let kind = next_kind(words)?;
    let quantity = next_number(words, 0, u32::MAX)?;
    words.end()?;
    Ok(Act::Do(Event::Order {
        participant,
        side,
        kind,
        qty: Qty(quantity),
    }))
}

// After `change`: P OWN K QTY.
#[tactic(auto, unfolding(crate::specs::Commands::change_words))]
#[inline(always)]
fn change_words(
    rules: &Rules,
    reader: &Reader,
    gateway: Caller,
    issue: u16,
    words: &mut Words<'_>,
) -> Result<Act, LineFault>
    requires gateway { gateway.0 ≤ 16 }
    requires issue { issue < 64 }
    ensures exact { result ≡ change_words rules.now reader.now.lines gateway issue words.old }
    ensures sound { IfOk result (IsActOf rules.now) }
{
    let participant = next_participant(rules, words)?;
    let target = next_own(reader, gateway, issue, words)?;
    let kind = next_kind(words)?;
    let quantity = next_number(words, 0, u32::MAX)?;
    words.end()?;
    Ok(Act::Do(Event::Change {
        participant,
        target,
        kind,
        qty: Qty(quantity),
    }))
}

// After `cancel`: P OWN.
#[tactic(auto, unfolding(crate::specs::Commands::cancel_words))]
#[inline(always)]
fn cancel_words(
    rules: &Rules,
    reader: &Reader,
    gateway: Caller,
    issue: u16,
    words: &mut Words<'_>,
) -> Result<Act, LineFault>
    requires gateway { gateway.0 ≤ 16 }
    requires issue { issue < 64 }
    ensures exact { result ≡ cancel_words rules.now reader.now.lines gateway issue words.old }
    ensures sound { IfOk result (IsActOf rules.now) }
{
    let participant = next_participant(rules, words)?;
    let target = next_own(reader, gateway, issue, words)?;
    words.end()?;
    Ok(Act::Do(Event::Cancel {
        participant,
        target,
    }))
}

// After `clock`: TIME.
#[tactic(auto, unfolding(crate::specs::Commands::clock_words))]
#[inline(always)]
fn clock_words(rules: &Rules, words: &mut Words<'_>) -> Result<Act, LineFault>
    ensures exact { result ≡ clock_words words.old }
    ensures sound { IfOk result (IsActOf rules.now) }
{
    let at = next_moment(words)?;
    words.end()?;
    Ok(Act::Do(Event::Clock { at }))
}

// After `crash`: NODE.
#[tactic(auto, unfolding(crate::specs::Commands::crash_words))]
#[inline(always)]
fn crash_words(rules: &Rules, words: &mut Words<'_>) -> Result<Act, LineFault>
    ensures exact { result ≡ crash_words words.old }
    ensures sound { IfOk result (IsActOf rules.now) }
{
    let node = next_node(words)?;
    words.end()?;
    Ok(Act::Do(Event::Crash { node }))
}

// After `rejoin`: NODE.
#[tactic(auto, unfolding(crate::specs::Commands::rejoin_words))]
#[inline(always)]
fn rejoin_words(rules: &Rules, words: &mut Words<'_>) -> Result<Act, LineFault>
    ensures exact { result ≡ rejoin_words words.old }
    ensures sound { IfOk result (IsActOf rules.now) }
{
    let node = next_node(words)?;
    words.end()?;
    Ok(Act::Do(Event::Rejoin { node }))
}

// After `show`: nothing.
#[tactic(auto, unfolding(crate::specs::Commands::show_words))]
#[inline(always)]
fn show_words(rules: &Rules, words: &mut Words<'_>) -> Result<Act, LineFault>
    ensures exact { result ≡ show_words words.old }
    ensures sound { IfOk result (IsActOf rules.now) }
{
    words.end()?;
    Ok(Act::Show)
}

// What the words after a command of a gateway say.
#[inline(always)]
pub(crate) fn act_words(
    rules: &Rules,
    reader: &Reader,
    gateway: Caller,
    issues: Issues,
    command: Command,
    words: &mut Words<'_>,
) -> Result<Act, LineFault>
    requires rules { IsRules rules.now }
    requires gateway { gateway.0 ≤ 16 }
    requires issues { AreIssues rules.now issues }
    ensures exact { result ≡ act_words rules.now reader.now.lines gateway issues command words.old }
    ensures sound { IfOk result (IsActOf rules.now) }
{
    match (command, issues) {
        (Command::Order, Issues::One(_)) => order_words(rules, words),
        (Command::Change, Issues::One(issue)) => {
            change_words(rules, reader, gateway, issue, words)
        }
        (Command::Cancel, Issues::One(issue)) => {
            cancel_words(rules, reader, gateway, issue, words)
        }
        (Command::Order | Command::Change | Command::Cancel, Issues::Each) => Err(LineFault::Issue),
        (Command::Clock, Issues::One(_) | Issues::Each) => clock_words(rules, words),
        (Command::Crash, Issues::One(_) | Issues::Each) => crash_words(rules, words),
        (Command::Rejoin, Issues::One(_) | Issues::Each) => rejoin_words(rules, words),
        (Command::Show, Issues::One(_) | Issues::Each) => show_words(rules, words),
    }
}
