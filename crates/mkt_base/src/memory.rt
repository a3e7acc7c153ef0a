// A watch in memory, for tests.
ghost use Rattle.std.specs.Prelude.{◌≡◌, ◌≤◌, ◌<◌, ℕ, List, [], ◌∷◌, ◌++◌, Some, MatchBool};
ghost use Rattle.mkt_base.specs.declared.output.Output.{Output};

use crate::{Moment, Outcome, Output, Participant, Phase, Price, Quote, Sums, Trade, Watch};
use std::alloc::Global;

/// A watch that keeps the outputs as a list. Where there is no memory for one of them, that is a fault, and nothing is
/// kept any more.
#[derive(Drop)]
pub struct MemWatch {
    outputs: Vec<Output>,
    faults: u64,
}

impl MemWatch {
    /// A watch that has been told nothing.
    pub fn new(alloc: Global) -> MemWatch
        ensures told { ⟦<MemWatch as Watch>⟧.told result ≡ Some [] }
        ensures faults { ⟦<MemWatch as Watch>⟧.faults result ≡ 0 }
    {
        MemWatch {
            outputs: Vec::new(alloc),
            faults: 0,
        }
    }

    /// The outputs that it was told, in their order.
    pub fn outputs(&self) -> &[Output]
        ensures { Some result.now ≡ ⟦<MemWatch as Watch>⟧.told self.now }
    {
        &self.outputs
    }

    /// How often it has failed: 0 or 1.
    pub fn faults(&self) -> u64
        ensures { result ≡ ⟦<MemWatch as Watch>⟧.faults self.now }
    {
        self.faults
    }

    fn keep(&mut self, output: Output)
        ensures { (from : MemWatch) (outputs : List Output) → ⟦<MemWatch as Watch>⟧.took from outputs self.old
            → ⟦<MemWatch as Watch>⟧.took from (outputs ++ output ∷ []) self.new }
    {
        if self.faults > 0 {
            return;
        }
        if !push(&mut self.outputs, output) {
            self.faults = 1;
        }
    }
}

// Adds an item at the end, and answers whether there was memory for it.
fn push<T: Copy + Drop>(list: &mut Vec<T>, item: T) -> bool
    ensures { MatchBool result (list.new.items ≡ list.old.items ++ item ∷ []) (list.new.items ≡ list.old.items) }
{
    list.push(item).is_ok()
}

impl Watch for MemWatch {
    ghost use Rattle.std.specs.Prelude.{Some};
    ghost use Rattle.std.proofs.Common.{rules};
    ghost use Rattle.mkt_base.specs.Watching.{Kept};

    ghost told = { λ w. Some w.outputs.items };

    ghost faults = { λ w. w.faults };

    ghost took = { λ from outputs w. Kept from.outputs.items from.faults outputs w.outputs.items w.faults };

    ghost begins = { Prim.search rules };

    ghost stands = { Prim.search rules };

    fn due(&mut self, at: Moment) {
        self.keep(Output::Due(at));
    }

    fn phase(&mut self, phase: Phase) {
        self.keep(Output::NewPhase(phase));
    }

    fn auction(&mut self, reference: Price, lo: Price, hi: Price) {
        self.keep(Output::Auction { reference, lo, hi });
    }

    fn rejected(&mut self, sums: Sums) {
        self.keep(Output::Rejected(sums));
    }

    fn outcome(&mut self, outcome: Outcome) {
        self.keep(Output::Answer(outcome));
    }

    fn share(&mut self, participant: Participant, qty: u64) {
        self.keep(Output::Share { participant, qty });
    }

    fn trade(&mut self, trade: Trade) {
        self.keep(Output::Traded(trade));
    }

    fn quote(&mut self, quote: Option<Quote>) {
        self.keep(Output::Quoted(quote));
    }
}
