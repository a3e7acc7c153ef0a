// How many trades there were, and how many shares.
ghost use Rattle.std.specs.Prelude.{◌≡◌, [], ◌∷◌, false};
ghost use Rattle.run_report.specs.Watched.{Counted};

use mkt_base::Trade;

// Counts of trades and of their shares. A count that would pass a u64 is kept as a flag: no journal of 100,000,000
// entries makes so many, which is not proved.
#[derive(Clone, Copy, Debug, PartialEq, Eq)]
pub(crate) struct Tally {
    pub(crate) trades: u64,
    pub(crate) shares: u64,
    pub(crate) passed: bool,
}

impl Tally {
    pub(crate) const NONE: Tally = Tally {
        trades: 0,
        shares: 0,
        passed: false,
    };

    pub(crate) fn add(&mut self, trade: Trade)
        ensures { Counted self.old (trade ∷ []) self.new }
    {
        let trades = self.trades.checked_add(1);
        let shares = self.shares.checked_add(trade.qty);
        match (trades, shares) {
            (Some(trades), Some(shares)) => {
                self.trades = trades;
                self.shares = shares;
            }
            _ => self.passed = true,
        }
    }
}
