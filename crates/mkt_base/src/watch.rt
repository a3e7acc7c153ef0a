// The watch: what is told each output of a step.
ghost use Rattle.std.specs.Prelude.{◌≡◌, ◌≤◌, ◌<◌, ℕ, List, [], ◌∷◌, ◌++◌, Option, Some, None, map, true, false};
ghost use Rattle.mkt_base.specs.Watching.{Stands};
ghost use Rattle.mkt_base.specs.declared.output.Output.{Output};
ghost use Rattle.mkt_base.specs.declared.auction.Sums.{Sums};

use crate::{Moment, Outcome, Output, Participant, Phase, Price, Quote, Sums, Trade};

/// Something that is told the outputs of a step, one after another: a printer, a counter, a list in memory.
///
/// A watch that prints cannot tell a list as a function of itself. So each call is told by a relation between two of its
/// states, `took`, and the law `stands` says what that means for the list, where the watch tells one.
pub trait Watch {
    /// The outputs that it stands for, where it tells them.
    ghost told: { Self → Option (List Output) };

    /// How often it has failed, as a u64 that stops at its last value.
    ghost faults: { Self → ℕ };

    /// From the first state to the second it was told these outputs, in this order, and no others.
    ghost took: { Self → List Output → Self → Type 0 };

    /// Whether it wants to be told the prices that an auction rejects. Where it does not, it may be told them or not.
    fn wants_rejected(&self) -> bool
        ensures { result ≡ false → (from : Self) (outputs : List Output) (rejected : List Sums)
            → took from outputs self.now
            → took from (outputs ++ map (λ sums. Output.Rejected sums) rejected) self.now }
    {
        true
    }

    fn due(&mut self, at: Moment)
        ensures { (from : Self) (outputs : List Output) → took from outputs self.old
            → took from (outputs ++ Output.Due at ∷ []) self.new };

    fn phase(&mut self, phase: Phase)
        ensures { (from : Self) (outputs : List Output) → took from outputs self.old
            → took from (outputs ++ Output.NewPhase phase ∷ []) self.new };

    fn auction(&mut self, reference: Price, lo: Price, hi: Price)
        ensures { (from : Self) (outputs : List Output) → took from outputs self.old
            → took from (outputs ++ Output.Auction reference lo hi ∷ []) self.new };

    fn rejected(&mut self, sums: Sums)
        ensures { (from : Self) (outputs : List Output) → took from outputs self.old
            → took from (outputs ++ Output.Rejected sums ∷ []) self.new };

    fn outcome(&mut self, outcome: Outcome)
        ensures { (from : Self) (outputs : List Output) → took from outputs self.old
            → took from (outputs ++ Output.Answer outcome ∷ []) self.new };

    fn share(&mut self, participant: Participant, qty: u64)
        ensures { (from : Self) (outputs : List Output) → took from outputs self.old
            → took from (outputs ++ Output.Share participant qty ∷ []) self.new };

    fn trade(&mut self, trade: Trade)
        ensures { (from : Self) (outputs : List Output) → took from outputs self.old
            → took from (outputs ++ Output.Traded trade ∷ []) self.new };

    fn quote(&mut self, quote: Option<Quote>)
        ensures { (from : Self) (outputs : List Output) → took from outputs self.old
            → took from (outputs ++ Output.Quoted quote ∷ []) self.new };

    /// A watch has been told nothing since now.
    ghost begins: { (w : Self) → took w [] w };

    /// What was told stands in the list, unless a fault was counted.
    ghost stands: { (from : Self) (outputs : List Output) (w : Self) → took from outputs w
        → Stands (told from) (faults from) outputs (told w) (faults w) };
}

/// A watch that keeps nothing, and never fails.
#[derive(Clone, Copy, Debug, PartialEq, Eq)]
pub struct NoWatch;

impl Watch for NoWatch {
    ghost use Rattle.std.proofs.Common.{rules};

    ghost told = { λ _. None };

    ghost faults = { λ _. 0 };

    ghost took = { λ _ _ _. Unit {0} };

    ghost begins = { λ _. tt };

    ghost stands = { Prim.search rules };

    fn wants_rejected(&self) -> bool {
        false
    }

    fn due(&mut self, _at: Moment) {}

    fn phase(&mut self, _phase: Phase) {}

    fn auction(&mut self, _reference: Price, _lo: Price, _hi: Price) {}

    fn rejected(&mut self, _sums: Sums) {}

    fn outcome(&mut self, _outcome: Outcome) {}

    fn share(&mut self, _participant: Participant, _qty: u64) {}

    fn trade(&mut self, _trade: Trade) {}

    fn quote(&mut self, _quote: Option<Quote>) {}
}
