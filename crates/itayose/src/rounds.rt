// Shares by rounds among the participants of the orders that share.
ghost use Rattle.std.specs.Prelude.{◌≡◌, ℕ, ◌+◌, ◌<◌, ◌≤◌, ◌^◌, ◌%◌, ◌==◌, List, [], ◌++◌, filter, take, count_by, nat_lt, All};
ghost use Rattle.mkt_base.specs.Book.{total_left};
ghost use Rattle.mkt_base.specs.declared.output.Output.{Output};
ghost use Rattle.allotment.specs.Allotment.{allot};
ghost use Rattle.allotment.specs.Rounds.{AreRounds};
ghost use Rattle.book_law.specs.BookView.{orders};
ghost use Rattle.book_law.specs.Sides.{total};
ghost use Rattle.itayose.specs.Fills.{demands_by_number, demands_of, share_outputs};
ghost use Rattle.itayose.specs.Sharing.{CanShare, is_ahead, shares_by_number, sharing_of, with_order};

use crate::sharing::{Group, all_sharers};
use allotment::{Demand, Round, allot};
use mkt_base::{Order, Participant, Watch};
use order_book::Book;

// One more than the greatest number of a participant.
const PARTICIPANTS: usize = 64;

// Gives out so many shares by rounds to the participants whose orders share, tells a watch the shares in the order of the
// allotment, and answers them by participant.
pub(crate) fn give_shares<W: Watch>(
    book: &Book,
    group: &Group,
    rounds: &[Round],
    unit: u32,
    given: u64,
    watch: &mut W,
) -> [u64; 64]
    requires position { group.now.at < book.now.prices }
    requires ahead { group.now.ahead ≡ total_left (is_ahead group.now.side group.now.at) (orders book.now) }
    requires left { group.now.left ≡ total (sharing_of book.now group.now.side group.now.at group.now.markets) }
    requires participants { All (λ o. o.participant.0 < 64) (orders book.now) }
    requires rounds { AreRounds rounds.now }
    requires unit { (1 ≤ unit) × (unit ≤ 100000000) }
    requires units { All (λ o. o.left % unit ≡ 0) (orders book.now) }
    requires in_units { given % unit ≡ 0 }
    requires within { given ≤ group.now.left }
    ensures shares { result ≡ shares_by_number (allot rounds.now unit (demands_of (sharing_of book.now group.now.side group.now.at group.now.markets)) given) }
    ensures told { (from : W) (outputs : List Output) → W.took from outputs watch.old
        → W.took from (outputs ++ share_outputs (allot rounds.now unit (demands_of (sharing_of book.now group.now.side group.now.at group.now.markets)) given)) watch.new }
{
    book.stands();
    let table = demands(book, group);
    let mut demands = table;
    let count = keep_asking(&table, &mut demands);
    share_among(rounds, unit, &mut demands[..count], given, watch)
}

// Gives out so many shares over demands, tells a watch the shares, and answers them by participant.
fn share_among<W: Watch>(
    rounds: &[Round],
    unit: u32,
    demands: &mut [Demand],
    given: u64,
    watch: &mut W,
) -> [u64; 64]
    requires rounds { AreRounds rounds.now }
    requires unit { (1 ≤ unit) × (unit ≤ 100000000) }
    requires demands { CanShare unit given demands.old }
    ensures shares { result ≡ shares_by_number (allot rounds.now unit demands.old given) }
    ensures told { (from : W) (outputs : List Output) → W.took from outputs watch.old
        → W.took from (outputs ++ share_outputs (allot rounds.now unit demands.old given)) watch.new }
{
    allot(rounds, unit, demands, given);
    tell(demands, watch);
    by_participant(demands)
}

// The demands of all participants by number, also of those that have no order that shares.
fn demands(book: &Book, group: &Group) -> [Demand; 64]
    requires position { group.now.at < book.now.prices }
    requires ahead { group.now.ahead ≡ total_left (is_ahead group.now.side group.now.at) (orders book.now) }
    requires left { group.now.left ≡ total (sharing_of book.now group.now.side group.now.at group.now.markets) }
    requires participants { All (λ o. o.participant.0 < 64) (orders book.now) }
    ensures { result ≡ demands_by_number (sharing_of book.now group.now.side group.now.at group.now.markets) }
{
    // Read here, so that its range bounds the sums.
    let _left = group.left;
    let mut table = no_demands();
    let mut rest = all_sharers(book, group);
    while rest.left > 0 {
        let (_, order) = rest.next(book);
        let own = usize::from(order.participant.0);
        table[own] = with_order(table[own], &order);
    }
    table
}

// A demand of nothing for each participant.
fn no_demands() -> [Demand; 64]
    ensures { result ≡ demands_by_number [] }
{
    let mut table = [Demand {
        participant: Participant(0),
        first: 0,
        asked: 0,
        share: 0,
    }; 64];
    for i in 0..PARTICIPANTS {
        table[i] = Demand {
            participant: Participant(i as u16),
            first: 0,
            asked: 0,
            share: 0,
        };
    }
    table
}

// A demand with an order more, which stands at a later place than those before it.
fn with_order(demand: Demand, order: &Order) -> Demand
    requires { demand.asked + order.now.left < 2 ^ 64 }
    ensures { result ≡ with_order demand order.now }
{
    Demand {
        participant: demand.participant,
        first: if demand.asked == 0 {
            order.place
        } else {
            demand.first
        },
        asked: demand.asked + order.left,
        share: demand.share,
    }
}

// Puts the demands that ask for shares to the front, and answers how many they are.
fn keep_asking(table: &[Demand; 64], demands: &mut [Demand; 64]) -> usize
    ensures count { result ≤ 64 }
    ensures front { take result demands.new ≡ filter (λ d. nat_lt 0 d.asked) table.now }
{
    let mut count = 0;
    for demand in table {
        if demand.asked > 0 {
            demands[count] = *demand;
            count += 1;
        }
    }
    count
}

// Tells a watch the shares.
fn tell<W: Watch>(demands: &[Demand], watch: &mut W)
    ensures { (from : W) (outputs : List Output) → W.took from outputs watch.old
        → W.took from (outputs ++ share_outputs demands.now) watch.new }
{
    for demand in demands {
        watch.share(demand.participant, demand.share);
    }
}

// The shares by the participants' numbers.
fn by_participant(demands: &[Demand]) -> [u64; 64]
    requires participants { All (λ d. d.participant.0 < 64) demands.now }
    requires once { (participant : ℕ) → count_by (λ d. participant == d.participant.0) demands.now ≤ 1 }
    ensures { result ≡ shares_by_number demands.now }
{
    let mut shares = [0; 64];
    for demand in demands {
        shares[usize::from(demand.participant.0)] = demand.share;
    }
    shares
}
