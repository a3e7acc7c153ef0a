// The allotment: the demands in their order, then round after round.
ghost use Rattle.std.specs.Prelude.{◌≡◌, ◌≢◌, ◌<◌, ◌≤◌, ◌+◌, ◌*◌, ◌/◌, ◌%◌, All, AllPairs, None, Some, length};
ghost use Rattle.std.specs.List.{last_or};
ghost use Rattle.allotment.specs.Allotment.{after_round, allot, amount, asked_in_all, given, shared, with_more};
ghost use Rattle.allotment.specs.Rounds.{IsRound};

use crate::demand::Demand;
use crate::order::sort;
use crate::round::Round;

/// Gives out `total` shares in trading units of `unit` shares, 1 to 100,000,000, over at most 64 demands. Leaves the
/// demands sorted by what they asked, the greatest first, then by their first places, with the shares set. It takes no
/// memory.
pub fn allot(rounds: &[Round], unit: u32, demands: &mut [Demand], total: u64)
    requires unit_from { 1 ≤ unit }
    requires unit_to { unit ≤ 100000000 }
    requires rounds { All IsRound rounds.now }
    requires last { last_or None rounds.now ≡ Some Round.All }
    requires few { length demands.old ≤ 64 }
    requires places { AllPairs (λ a b. a.first ≢ b.first) demands.old }
    requires asked { All (λ d. (0 < d.asked) × (d.asked % unit ≡ 0)) demands.old }
    requires unshared { All (λ d. d.share ≡ 0) demands.old }
    requires in_units { total % unit ≡ 0 }
    requires within { total ≤ asked_in_all demands.old }
    ensures { demands.new ≡ allot rounds.now unit demands.old total }
{
    sort(demands);
    let mut left = total;
    for round in rounds {
        left = share_round(round, unit, demands, left);
    }
}

// Gives to each demand in turn while some of the total is left, and answers what is left then.
fn share_round(round: &Round, unit: u32, demands: &mut [Demand], total: u64) -> u64
    requires unit_from { 1 ≤ unit }
    requires unit_to { unit ≤ 100000000 }
    requires round { IsRound round.now }
    requires within { All (λ d. d.share ≤ d.asked) demands.old }
    ensures demands { demands.new ≡ after_round round.now unit total demands.old }
    ensures left { result + shared demands.new ≡ total + shared demands.old }
{
    let mut left = total;
    for demand in demands.iter_mut() {
        left -= give(demand, round, unit, left);
    }
    left
}

// Gives to a demand, and answers how much.
fn give(demand: &mut Demand, round: &Round, unit: u32, left: u64) -> u64
    requires unit_from { 1 ≤ unit }
    requires unit_to { unit ≤ 100000000 }
    requires round { IsRound round.now }
    requires within { demand.old.share ≤ demand.old.asked }
    ensures given { result ≡ given round.now unit left demand.old }
    ensures more { demand.new ≡ with_more result demand.old }
{
    let rest = demand.asked - demand.share;
    let given = amount(round, unit, rest).min(rest).min(left);
    demand.share += given;
    given
}

// What a round gives at most for a rest.
fn amount(round: &Round, unit: u32, rest: u64) -> u64
    requires unit_from { 1 ≤ unit }
    requires unit_to { unit ≤ 100000000 }
    requires round { IsRound round.now }
    ensures { result ≡ amount round.now unit rest }
{
    let unit = u64::from(unit);
    match *round {
        Round::Units(k) => u64::from(k) * unit,
        Round::Part { n, d } => (part(rest, n, d) / unit * unit).max(unit),
        Round::All => rest,
    }
}

// The part n/d of a number, rounded down. No product on the way is above the number or above a million.
fn part(whole: u64, n: u32, d: u32) -> u64
    requires some { 1 ≤ n }
    requires part { n ≤ d }
    requires small { d ≤ 1000 }
    ensures { result ≡ whole * n / d }
{
    let (n, d) = (u64::from(n), u64::from(d));
    whole / d * n + whole % d * n / d
}
