// The script so far, while its lines are read.
ghost use Rattle.std.specs.Prelude.{◌≡◌, ◌+◌, ◌-◌, ◌<◌, ◌≤◌, [], ◌∷◌, ◌++◌, Ok, Err, IfOk, MatchResult, OnOk, vec_capacity, vec_len};
ghost use Rattle.std.specs.List.{range_with_len};
ghost use Rattle.rules_file.specs.Rules.{IsRules};
ghost use Rattle.script_file.specs.Faults.{Fails, at_line};
ghost use Rattle.script_file.specs.Own.{is_order_of};
ghost use Rattle.script_file.specs.Reader.{IsScriptBefore, events_of, with_run};
ghost use Rattle.script_file.specs.Script.{IsFor, event_count, is_barrier, line_said, numbers_of, said_by, with_said, words_said};
ghost use Rattle.script_file.specs.Words.{AreIssues};

use crate::commands::{act_words, next_command};
use crate::fault::at_line;
use crate::orders::OrderLog;
use crate::words::{Issues, gateway_of, next_issues};
use crate::{GatewayScriptLine, Script, ScriptFault};
use mkt_base::{Act, Caller, Rows, ScriptLine};
use mkt_io::{LineFault, Words, checked_words};
use rules_file::Rules;
use std::alloc::{AllocError, Global};
use std::marker::Model;

/// How many events a script may have, over all gateways and issues.
const EVENTS_LIMIT: u32 = 500_000;

// What a line of a script says.
#[derive(Clone, Copy)]
pub(crate) enum Said {
    // Nothing: it has no words, or is a comment.
    Nothing,
    // That a stage ends.
    Barrier,
    // A gateway does this in these issues.
    Line(Caller, Issues, Act),
}

// The script so far. Contracts see the script.
#[derive(Drop)]
pub(crate) struct Reader {
    lines: Vec<GatewayScriptLine>,
    stages: u32,
    // How many of the lines make an event.
    events: u32,
    // Which of the events are orders, by own number.
    orders: OrderLog,
}

impl Model for Reader {
    ghost use Rattle.script_file.specs.declared.script.Script.{Script};
    ghost use Rattle.script_file.specs.Orders.{rows_of};
    ghost use Rattle.script_file.specs.Reader.{IsKept};

    ghost Value = { Script };

    ghost view = { λ r. record { lines = r.lines.items; stages = r.stages } };

    ghost invariant = { λ r. IsKept r.lines.items (rows_of r.orders) r.stages r.events };
}

impl Reader {
    // The script before its first line.
    pub(crate) fn make(alloc: Global) -> Result<Reader, AllocError>
        ensures { IfOk result (λ reader. reader ≡ record { lines = []; stages = 1 }) }
    {
        let orders = OrderLog::make(alloc)?;
        Ok(Reader {
            lines: Vec::new(alloc),
            stages: 1,
            events: 0,
            orders,
        })
    }

    // Whether the gateway's event of this own number in the issue is an order.
    #[inline(always)]
    pub(crate) fn is_order_of(&self, gateway: Caller, issue: u16, own: u32) -> bool
        requires gateway { gateway.0 ≤ 16 }
        requires issue { issue < 64 }
        ensures { result ≡ is_order_of self.now.lines gateway issue own }
    {
        self.orders.is_order(gateway, issue, own)
    }

    // The script as it stands.
    pub(crate) fn into_script(self) -> Script
        ensures { result ≡ self }
    {
        let Reader { lines, stages, .. } = self;
        Script {
            lines: Rows::new(lines),
            stages,
        }
    }

    // Reads a line: the script has what it says, or its first fault is told.
    #[inline(always)]
    pub(crate) fn read_line(
        &mut self,
        rules: &Rules,
        number: u32,
        text: &[u8],
    ) -> Result<(), ScriptFault>
        requires rules { IsRules rules.now }
        requires before { IsScriptBefore rules.now self.old number }
        ensures exact { MatchResult result (λ _. line_said rules.now self.old number text.now ≡ Ok self.new) (λ fault.
            Fails fault (line_said rules.now self.old number text.now)) }
        ensures sound { OnOk result (IsScriptBefore rules.now self.new (number + 1)) }
    {
        match self.read_words(rules, number, text) {
            Ok(said) => self.add(rules, number, &said),
            Err(fault) => Err(at_line(number, fault)),
        }
    }

    // Adds what a line says.
    #[inline(always)]
    fn add(&mut self, rules: &Rules, number: u32, said: &Said) -> Result<(), ScriptFault>
        requires rules { IsRules rules.now }
        requires said { IsFor rules.now said.now }
        requires stages { self.old.stages ≤ 500000 }
        ensures { MatchResult result (λ _. at_line number (with_said rules.now self.old number said.now) ≡ Ok self.new)
            (λ fault. Fails fault (at_line number (with_said rules.now self.old number said.now))) }
    {
        match said {
            Said::Nothing => Ok(()),
            Said::Barrier => {
                self.end_stage();
                Ok(())
            }
            Said::Line(gateway, issues, act) => {
                self.add_line(rules, number, *gateway, *issues, act)
            }
        }
    }

    // Ends the stage that is open, and opens the next.
    fn end_stage(&mut self)
        requires { self.old.stages ≤ 500000 }
        ensures { self.new ≡ record self.old { stages = self.old.stages + 1 } }
    {
        self.stages += 1;
    }

    // Adds a gateway's line. Its events are counted before anything is added.
    #[inline(always)]
    fn add_line(
        &mut self,
        rules: &Rules,
        number: u32,
        gateway: Caller,
        issues: Issues,
        act: &Act,
    ) -> Result<(), ScriptFault>
        requires rules { IsRules rules.now }
        requires said { IsFor rules.now (Said.Line gateway issues act.now) }
        ensures { MatchResult result (λ _. at_line number (with_said rules.now self.old number (Said.Line gateway issues act.now)) ≡
            Ok self.new) (λ fault. Fails fault (at_line number (with_said rules.now self.old number (Said.Line gateway issues act.now)))) }
    {
        let (first, count) = numbers_of(rules, issues);
        if self.events + events_of(act, count) > EVENTS_LIMIT {
            return Err(at_line(number, LineFault::TooMany));
        }
        match self.add_run(number, gateway, act, first, count) {
            Ok(()) => Ok(()),
            Err(_) => Err(ScriptFault::Memory),
        }
    }

    // Adds a line for each of `count` issues from the first on.
    #[inline(always)]
    fn add_run(
        &mut self,
        number: u32,
        gateway: Caller,
        act: &Act,
        first: u16,
        count: u16,
    ) -> Result<(), AllocError>
        requires gateway { gateway.0 ≤ 16 }
        requires issues { first + count ≤ 64 }
        requires room { event_count self.old.lines + events_of act.now count ≤ 500000 }
        ensures { OnOk result (self.new ≡ with_run self.old number gateway act.now first count) }
    {
        let stage = self.open_stage();
        for issue in first..first + count {
            let line = line_for(stage, number, gateway, act, issue);
            self.push(&line)?;
        }
        Ok(())
    }

    // The number of the stage that is open.
    fn open_stage(&self) -> u32
        ensures { result ≡ self.now.stages - 1 }
    {
        self.stages - 1
    }

    // Where there is no memory nothing is added.
    #[inline(always)]
    fn push(&mut self, line: &GatewayScriptLine) -> Result<(), AllocError>
        requires room { event_count self.old.lines + events_of line.now.line.act 1 ≤ 500000 }
        requires gateway { line.now.gateway.0 ≤ 16 }
        requires issue { line.now.line.issue < 64 }
        ensures { OnOk result (self.new ≡ record self.old { lines = self.old.lines ++ line.now ∷ [] }) }
    {
        let events = events_of(&line.line.act, 1);
        // (the line and its event stand together, so there is room for the line first)
        make_room(&mut self.lines)?;
        self.orders
            .note(line.gateway, line.line.issue, &line.line.act)?;
        push(&mut self.lines, line);
        self.events += events;
        Ok(())
    }

    // What a line with these words says: its words are tested from left to right.
    #[tactic(auto, unfolding(crate::specs::Script::said_by, crate::specs::Script::gateway_line))]
    #[inline(always)]
    fn said_by(&self, rules: &Rules, words: &mut Words<'_>) -> Result<Said, LineFault>
        requires { IsRules rules.now }
        ensures exact { result ≡ said_by rules.now self.now.lines words.old }
        ensures known { IfOk result (IsFor rules.now) }
    {
        let Some(first) = words.first() else {
            return Ok(Said::Nothing);
        };
        if is_barrier(first, words) {
            return Ok(Said::Barrier);
        }
        let gateway = gateway_of(rules, first)?;
        let issues = next_issues(rules, words)?;
        let command = next_command(words)?;
        let act = act_words(rules, self, gateway, issues, command, words)?;
        Ok(Said::Line(gateway, issues, act))
    }

    // What a line says, or its first fault.
    #[tactic(auto, unfolding(crate::specs::Script::words_said))]
    #[inline(always)]
    fn read_words(&self, rules: &Rules, number: u32, text: &[u8]) -> Result<Said, LineFault>
        requires { IsRules rules.now }
        ensures exact { result ≡ words_said rules.now self.now.lines number text.now }
        ensures known { IfOk result (IsFor rules.now) }
    {
        match checked_words(number, text) {
            Ok(mut words) => self.said_by(rules, &mut words),
            Err(fault) => Err(fault),
        }
    }
}

// Sees to it that there is room for an item more.
#[inline(always)]
fn make_room<T: Copy + Drop>(items: &mut Vec<T>) -> Result<(), AllocError>
    ensures same { items.new.items ≡ items.old.items }
    ensures room { OnOk result (vec_len items.new < vec_capacity items.new) }
{
    items.reserve(1)
}

// Adds an item at the end. (The prover does not follow a push of an item that holds a moment.)
#[inline(always)]
fn push<T: Copy + Drop>(items: &mut Vec<T>, item: &T)
    requires { vec_len items.old < vec_capacity items.old }
    ensures { items.new.items ≡ items.old.items ++ item.now ∷ [] }
{
    items.push_reserved(*item);
}

// A gateway's line for one issue.
#[inline(always)]
fn line_for(stage: u32, number: u32, gateway: Caller, act: &Act, issue: u16) -> GatewayScriptLine
    ensures { result ≡ record { gateway = gateway; line = record { line = number; stage = stage; issue = issue; act = act.now } } }
{
    GatewayScriptLine {
        gateway,
        line: ScriptLine {
            line: number,
            stage,
            issue,
            act: *act,
        },
    }
}

// How many events a line makes for so many issues.
#[inline(always)]
fn events_of(act: &Act, count: u16) -> u32
    ensures { result ≡ events_of act.now count }
{
    match act {
        Act::Do(_) => u32::from(count),
        Act::Show => 0,
    }
}

// The numbers of the issues that a line is for: the first, and how many there are.
#[inline(always)]
fn numbers_of(rules: &Rules, issues: Issues) -> (u16, u16)
    requires rules { IsRules rules.now }
    requires known { AreIssues rules.now issues }
    ensures numbers { numbers_of rules.now issues ≡ range_with_len result.0 result.1 }
    ensures few { result.0 + result.1 ≤ 64 }
{
    match issues {
        Issues::One(issue) => (issue, 1),
        Issues::Each => (0, rules.issues()),
    }
}

// Whether a line is the one word `barrier`, by its first word and those after it.
#[inline(always)]
fn is_barrier(first: &[u8], words: &Words<'_>) -> bool
    ensures { result ≡ is_barrier (first.now ∷ words.now) }
{
    first == b"barrier".as_slice() && words.at_end()
}
