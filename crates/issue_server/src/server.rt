// The server, how it begins, and passes for its callers.
ghost use Rattle.std.specs.Prelude.{◌≡◌, ℕ, ◌<◌, [], None, IfOk, IfErr};
ghost use Rattle.turn_cell.specs.Marks.{Begins};
ghost use Rattle.turn_cell.specs.Passes.{first_pass, one_less, next_pass, met_with, Holds};
ghost use Rattle.issue_server.specs.Meeting.{HaltsByOthers, KeepsHalt};

use issue_journal::Issue;
use memory_node::MemoryNode;
use std::alloc::Global;
use std::marker::Model;
use turn_cell::{CellFault, Pass, TurnCell};

/// Serves one issue to any number of callers, one at a time and in the order in which they came.
#[derive(Drop)]
pub struct Server<N: MemoryNode> {
    pub(crate) cell: TurnCell<Issue<N>>,
}

impl<N: MemoryNode> Model for Server<N> {
    ghost use Rattle.atomic_table.specs.Seated.{TableId, table_id_coded};

    ghost Value = { TableId };

    ghost coded = { table_id_coded };

    ghost view = { λ s. s.cell };
}

/// Why there is no server. The issue comes back.
#[derive(Drop)]
pub enum ServerFault<N: MemoryNode> {
    /// There was no memory.
    Memory(Issue<N>),
}

impl<N: MemoryNode> Server<N> {
    /// A server for callers 1 to `callers` of an issue without entries and without a halt, and the pass of caller 1, which has all others
    /// in its block. No later call takes memory.
    pub fn make(
        alloc: Global,
        issue: Issue<N>,
        callers: u16,
    ) -> Result<(Server<N>, Pass<Issue<N>>), ServerFault<N>>
        requires some_caller { 0 < callers }
        requires entries { issue.entries ≡ [] }
        requires halt { issue.halt ≡ None }
        ensures made { IfOk result (λ r. r.1 ≡ first_pass r.0 callers issue.fixed) }
        ensures memory { IfErr result (λ f. f ≡ ServerFault.Memory issue) }
    {
        match TurnCell::make(alloc, issue, callers) {
            Ok((cell, pass)) => Ok((Server { cell }, pass)),
            Err(CellFault::Memory(issue)) => Err(ServerFault::Memory(issue)),
        }
    }

    /// The pass of the first caller of the pass's block. It has seen what the pass has seen, and made nothing.
    pub fn split(&self, pass: &mut Pass<Issue<N>>) -> Pass<Issue<N>>
        requires cell { pass.old.cell ≡ self.now }
        requires block { 0 < pass.old.block }
        ensures pass { pass.new ≡ one_less pass.old }
        ensures next { result ≡ next_pass pass.old }
        ensures holds { Holds result.seen result }
    {
        self.cell.split(pass)
    }

    /// Ends another pass in this one. Of the two lists that they have seen one is a beginning of the other, and the pass has then seen the
    /// longer one, and the halt that either of them had seen.
    pub fn meet(&self, pass: &mut Pass<Issue<N>>, other: Pass<Issue<N>>)
        requires cells { (pass.old.cell ≡ self.now) × (other.cell ≡ self.now) }
        requires block { other.block ≡ 0 }
        ensures pass { pass.new ≡ met_with pass.old other }
        ensures grows { Begins pass.old.seen pass.new.seen × Begins other.seen pass.new.seen }
        ensures holds { Holds pass.new.seen pass.new }
        ensures keeps_halt { KeepsHalt pass.old pass.new × KeepsHalt other pass.new }
        ensures others_halt { HaltsByOthers pass.old pass.new × HaltsByOthers other pass.new }
    {
        self.cell.meet(pass, other);
    }
}
