// A gateway, and its lines of a stage.
ghost use Rattle.std.specs.Prelude.{◌≡◌, ◌<◌, ◌≤◌, [], ◌∷◌, length, All, IfOk};
ghost use Rattle.mkt_base.specs.declared.script.ScriptLine.{ScriptLine};
ghost use Rattle.gateway.specs.Ran.{AreInStages, BeginNoEarlier, Deed, Did, IsTaken, Ran, comes_next, lines_after};

use crate::line::{count_reads, do_line};
use mkt_base::{Caller, Desk, ScriptLine, ShowLine};
use mkt_io::Gate;
use std::alloc::Global;
use std::marker::Model;
use std::sync::Wait;
use thiserror::Error;

/// Why no gateway was made.
#[derive(Clone, Copy, Debug, PartialEq, Eq, Error)]
pub enum GatewayFault {
    /// There is no memory for the boards that its lines read.
    #[error("out of memory")]
    Memory,
}

/// A gateway: one caller's lines of a script, over all issues and in file order, and the boards that it has read so far.
///
/// The room for the boards is taken when it is made, so its lines are done without memory.
#[derive(Debug, Drop)]
pub struct Gateway {
    caller: Caller,
    lines: Vec<ScriptLine>,
    // how many of the lines are done
    done: usize,
    shows: Vec<ShowLine>,
}

impl Model for Gateway {
    ghost use Rattle.std.specs.Prelude.{◌≡◌, ◌+◌, ◌≤◌, drop, length, count_by, vec_len, vec_capacity};
    ghost use Rattle.gateway.specs.Ran.{GatewayNow, AreInStages, is_show};

    ghost Value = { GatewayNow };

    ghost view = { λ g. record { caller = g.caller; lines = drop g.done g.lines.items; shows = g.shows.items } };

    ghost invariant = { λ g. (g.done ≤ vec_len g.lines) × AreInStages (drop g.done g.lines.items)
        × (vec_len g.shows + count_by is_show (drop g.done g.lines.items) ≤ vec_capacity g.shows) };
}

impl Gateway {
    /// The gateway of a caller, with its lines in file order. None of them is done yet.
    pub fn make(
        alloc: Global,
        caller: Caller,
        lines: Vec<ScriptLine>,
    ) -> Result<Gateway, GatewayFault>
        requires { AreInStages lines.items }
        ensures caller { IfOk result (λ g. g.caller ≡ caller) }
        ensures lines { IfOk result (λ g. g.lines ≡ lines.items) }
        ensures shows { IfOk result (λ g. g.shows ≡ []) }
    {
        let Ok(shows) = Vec::with_capacity(alloc, count_reads(&lines)) else {
            return Err(GatewayFault::Memory);
        };
        Ok(Gateway {
            caller,
            lines,
            done: 0,
            shows,
        })
    }

    /// Does the lines of a stage, in their order, each between `at` and `after` of the gate. The desks are those of the issues,
    /// by their numbers. What a desk could not enter is kept by the desk, and does not end the call. May wait.
    pub fn run<W: Wait, D: Desk, G: Gate>(&mut self, rt: &W, desks: &mut [D], stage: u32, gate: &G)
        requires next { BeginNoEarlier stage self.old.lines }
        requires desks { All (λ (l : ScriptLine). l.issue < length desks.old) self.old.lines }
        requires takes { All (IsTaken D.takes D.fixed desks.old) self.old.lines }
        ensures caller { self.new.caller ≡ self.old.caller }
        ensures rest { self.new.lines ≡ lines_after stage self.old.lines }
        ensures ran { Ran D.state D.fixed D.tells stage self.old self.new desks.old desks.new }
    {
        while self.is_next_in(stage) {
            self.do_next(rt, desks, gate);
        }
    }

    /// The first line that is not yet done is of this stage.
    pub fn is_next_in(&self, stage: u32) -> bool
        ensures next { result ≡ comes_next stage self.now.lines }
        ensures stages { AreInStages self.now.lines }
    {
        match self.lines.get(self.done) {
            Some(line) => line.stage == stage,
            None => false,
        }
    }

    // Does the next line.
    fn do_next<W: Wait, D: Desk, G: Gate>(&mut self, rt: &W, desks: &mut [D], gate: &G)
        requires next { 0 < length self.old.lines }
        requires desks { All (λ (l : ScriptLine). l.issue < length desks.old) self.old.lines }
        requires takes { All (IsTaken D.takes D.fixed desks.old) self.old.lines }
        ensures caller { self.new.caller ≡ self.old.caller }
        ensures did { (x : Deed) × (self.old.lines ≡ x.line ∷ self.new.lines)
            × Did D.state D.fixed D.tells self.old.caller (x ∷ []) self.old.shows self.new.shows desks.old desks.new }
    {
        let line = &self.lines[self.done];
        gate.at(self.caller, line.line);
        do_line(rt, desks, self.caller, line, &mut self.shows);
        gate.after(self.caller, line.line);
        self.done += 1;
    }

    /// How many of its lines are not yet done.
    pub fn rest(&self) -> usize
        ensures { result ≡ length self.now.lines }
    {
        self.lines.len() - self.done
    }

    /// The boards that it has read, in the order of its lines.
    pub fn shows(&self) -> &[ShowLine]
        ensures { result.now ≡ self.now.shows }
    {
        &self.shows
    }
}
