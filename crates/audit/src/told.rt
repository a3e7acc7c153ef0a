// What the lines of a report tell.
ghost use Rattle.std.specs.Prelude.{◌≡◌, [], None, OnOk, codes, length, if◌then◌else◌};
ghost use Rattle.std.specs.Str.{bytes_eq};
ghost use Rattle.rules_file.specs.Rules.{IsRules, gateways_in};
ghost use Rattle.audit.specs.Reading.{asked_words, caller_event, choice_words, read, shown_by, taken, with_choice};
ghost use Rattle.audit.specs.State.{at_of};
ghost use Rattle.audit.specs.Told.{Close, Enter, Going, Showing, Stop, asked_told, filled_up, is_behind, issues_told, may_show, may_stop, next};

use crate::journal::Journal;
use crate::words::{asked_words, begins_with_digit, next_caller, next_event};
use mkt_base::{Caller, Halt, Rows};
use mkt_io::Words;
use rules_file::Rules;
use run_report::EndedIssue;
use std::alloc::{AllocError, Global};
use std::mem;

// A read of a board: the line of the script, the gateway, the issue's number, and how many entries its journal had.
#[derive(Clone, Copy, Debug, PartialEq, Eq)]
pub(crate) struct Asked {
    pub(crate) line: u32,
    pub(crate) gateway: Caller,
    pub(crate) issue: u16,
    pub(crate) length: u64,
}

// Where in a report a line stands.
#[derive(Clone, Copy, Debug, PartialEq, Eq)]
pub(crate) enum Point {
    // In the part of an issue.
    Going,
    // Among the reads of boards.
    Showing,
    // Behind the end.
    Over,
}

// The issues that are done, the journal of the one at hand with what halted it, and the reads of boards.
#[derive(Drop)]
pub(crate) struct Told {
    pub(crate) done: Vec<EndedIssue>,
    pub(crate) journal: Journal,
    pub(crate) halt: Option<Halt>,
    pub(crate) asked: Vec<Asked>,
    pub(crate) point: Point,
}

impl Told {
    // Before the first entry of the first issue.
    pub(crate) fn new(alloc: Global) -> Told
        ensures { at_of result ≡ Going [] [] }
    {
        Told {
            done: Vec::new(alloc),
            journal: Journal::new(alloc),
            halt: None,
            asked: Vec::new(alloc),
            point: Point::Going,
        }
    }

    // Takes what a line tells, where it tells something that may stand there.
    pub(crate) fn take(
        &mut self,
        alloc: Global,
        rules: &Rules,
        line: &[u8],
    ) -> Result<(), AllocError>
        requires { IsRules rules.now }
        ensures { OnOk result (at_of self.new ≡ with_choice rules.now (at_of self.old) (read rules.now (at_of self.old) line.now)) }
    {
        let mut words = Words::new(line);
        let Some(word) = words.next() else {
            return Ok(());
        };
        match self.point {
            Point::Going if self.halt.is_some() => self.take_halted(alloc, rules, word),
            Point::Going => self.take_going(alloc, rules, word, &mut words),
            Point::Showing => self.take_showing(rules, word, &mut words),
            Point::Over => Ok(()),
        }
    }

    // Takes a line of an issue that is not halted.
    fn take_going(
        &mut self,
        alloc: Global,
        rules: &Rules,
        word: &[u8],
        words: &mut Words<'_>,
    ) -> Result<(), AllocError>
        requires rules { IsRules rules.now }
        requires point { self.old.point ≡ Point.Going }
        requires halt { self.old.halt ≡ None }
        ensures { let at = Going self.old.done.items self.old.journal in
            OnOk result (at_of self.new ≡ with_choice rules.now at (taken rules.now at (choice_words rules.now at word.now words.old))) }
    {
        if begins_with_digit(word) {
            return self.take_entry(rules, words);
        }
        if word == b"halted".as_slice() {
            self.take_halt(rules, words);
            return Ok(());
        }
        if word == b"nodes".as_slice() {
            return self.close(alloc, rules);
        }
        Ok(())
    }

    // Takes an entry.
    #[tactic(auto, unfolding(crate::specs::Reading::caller_event))]
    fn take_entry(&mut self, rules: &Rules, words: &mut Words<'_>) -> Result<(), AllocError>
        requires rules { IsRules rules.now }
        requires point { self.old.point ≡ Point.Going }
        requires halt { self.old.halt ≡ None }
        ensures { let at = Going self.old.done.items self.old.journal in
            OnOk result (at_of self.new ≡ with_choice rules.now at (taken rules.now at (caller_event Enter rules.now words.old))) }
    {
        let Ok(caller) = next_caller(rules, words) else {
            return Ok(());
        };
        if words.wanted().is_err() {
            return Ok(());
        }
        match next_event(rules, words) {
            Ok(event) => {
                if self.journal.may_enter(rules.gateways(), caller, &event) {
                    self.journal.enter(caller, &event)
                } else {
                    Ok(())
                }
            }
            Err(_) => Ok(()),
        }
    }

    // Takes what halted the issue.
    #[tactic(auto, unfolding(crate::specs::Reading::caller_event))]
    fn take_halt(&mut self, rules: &Rules, words: &mut Words<'_>)
        requires rules { IsRules rules.now }
        requires point { self.old.point ≡ Point.Going }
        requires halt { self.old.halt ≡ None }
        ensures { let at = Going self.old.done.items self.old.journal in
            at_of self.new ≡ with_choice rules.now at (taken rules.now at (caller_event Stop rules.now words.old)) }
    {
        let Ok(caller) = next_caller(rules, words) else {
            return;
        };
        if words.wanted().is_err() {
            return;
        }
        match next_event(rules, words) {
            Ok(event) => {
                if may_stop(rules, caller) {
                    let own = self.journal.next_own(caller);
                    self.halt = Some(Halt { caller, own, event });
                }
            }
            Err(_) => {}
        }
    }

    // Takes a line of an issue that is halted.
    fn take_halted(&mut self, alloc: Global, rules: &Rules, word: &[u8]) -> Result<(), AllocError>
        requires rules { IsRules rules.now }
        requires point { self.old.point ≡ Point.Going }
        ensures { OnOk result (at_of self.new ≡ with_choice rules.now (at_of self.old)
            (if bytes_eq word.now (codes "nodes") then Some Close else None)) }
    {
        if word == b"nodes".as_slice() {
            return self.close(alloc, rules);
        }
        Ok(())
    }

    // Ends the issue at hand.
    fn close(&mut self, alloc: Global, rules: &Rules) -> Result<(), AllocError>
        requires rules { IsRules rules.now }
        requires point { self.old.point ≡ Point.Going }
        ensures told { OnOk result (at_of self.new ≡ next rules.now (at_of self.old) Close) }
        ensures none_asked { OnOk result (self.new.asked.items ≡ []) }
    {
        let journal = mem::replace(&mut self.journal, Journal::new(alloc));
        let halt = self.halt;
        self.halt = None;
        self.asked.clear();
        self.done.push(EndedIssue {
            journal: journal.into_rows(),
            halt,
        })?;
        if self.done.len() >= usize::from(rules.issues()) {
            self.point = Point::Showing;
        }
        Ok(())
    }

    // Takes a line behind the issues.
    fn take_showing(
        &mut self,
        rules: &Rules,
        word: &[u8],
        words: &mut Words<'_>,
    ) -> Result<(), AllocError>
        requires rules { IsRules rules.now }
        requires point { self.old.point ≡ Point.Showing }
        ensures { let at = Showing self.old.done.items self.old.asked.items in
            OnOk result (at_of self.new ≡ with_choice rules.now at (taken rules.now at (choice_words rules.now at word.now words.old))) }
    {
        if word == b"show".as_slice() {
            return self.take_show(rules, words);
        }
        if word == b"end".as_slice() {
            self.point = Point::Over;
        }
        Ok(())
    }

    // Takes a read of a board.
    fn take_show(&mut self, rules: &Rules, words: &mut Words<'_>) -> Result<(), AllocError>
        requires rules { IsRules rules.now }
        requires point { self.old.point ≡ Point.Showing }
        ensures { let at = Showing self.old.done.items self.old.asked.items in
            OnOk result (at_of self.new ≡ with_choice rules.now at (taken rules.now at (shown_by (asked_words rules.now words.old)))) }
    {
        let Ok(asked) = asked_words(rules, words) else {
            return Ok(());
        };
        if may_show(self.done.as_slice(), self.asked.as_slice(), &asked) {
            self.asked.push(asked)?;
        }
        Ok(())
    }

    // Ends what is told as soon as it may: the issue at hand, and those that are left.
    pub(crate) fn finish(&mut self, alloc: Global, rules: &Rules) -> Result<(), AllocError>
        requires { IsRules rules.now }
        ensures issues { OnOk result (self.new.done.items ≡ issues_told rules.now (at_of self.old)) }
        ensures asked { OnOk result (self.new.asked.items ≡ asked_told (at_of self.old)) }
    {
        match self.point {
            Point::Going => {
                self.close(alloc, rules)?;
                fill_up(alloc, usize::from(rules.issues()), &mut self.done)
            }
            Point::Showing | Point::Over => Ok(()),
        }
    }
}

// Adds issues without an entry, up to so many.
fn fill_up(alloc: Global, issues: usize, done: &mut Vec<EndedIssue>) -> Result<(), AllocError>
    ensures { OnOk result (done.new.items ≡ filled_up issues done.old.items) }
{
    while done.len() < issues {
        done.push(EndedIssue {
            journal: Rows::new(Vec::new(alloc)),
            halt: None,
        })?;
    }
    Ok(())
}

// Whether a halt is of a gateway.
fn may_stop(rules: &Rules, caller: Caller) -> bool
    requires { IsRules rules.now }
    ensures { result ≡ may_stop (length (gateways_in rules.now)) caller }
{
    1 <= caller.0 && caller.0 <= rules.gateways()
}

// Whether one read of a board stands behind another.
fn is_behind(a: &Asked, b: &Asked) -> bool
    ensures { result ≡ is_behind a.now b.now }
{
    a.line < b.line || a.line == b.line && a.issue < b.issue
}

// Whether a read of a board may follow others.
#[tactic(auto, unfolding(crate::specs::Told::may_show))]
fn may_show(done: &[EndedIssue], asked: &[Asked], a: &Asked) -> bool
    ensures { result ≡ may_show done.now asked.now a.now }
{
    let entries = match done.get(usize::from(a.issue)) {
        Some(ended) => ended.journal.as_slice().len() as u64,
        None => 0,
    };
    if a.length > entries {
        return false;
    }
    match asked.last() {
        Some(last) => is_behind(last, a),
        None => true,
    }
}
