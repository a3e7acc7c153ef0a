// What an allotment gives, by a table.
ghost use Rattle.std.specs.Prelude.{◌≡◌};

use allotment::{Demand, Round, allot};
use mkt_base::Participant;
use std::test::Fail;

// The demand of the participant whose number is its first place.
fn demand(first: u16, asked: u64) -> Demand
    ensures { result ≡ record { participant = record { 0 = first }; first = first; asked = asked; share = 0 } }
{
    Demand {
        participant: Participant(first),
        first: u64::from(first),
        asked,
        share: 0,
    }
}

#[test]
fn shares_by_rounds(rt: HostRuntime) -> Result<(), Fail> {
    let rounds = [
        Round::Units(1),
        Round::Part { n: 1, d: 3 },
        Round::Part { n: 1, d: 2 },
        Round::All,
    ];
    for (total, shares) in [(1000u64, [500u64, 300, 200]), (100, [100, 0, 0])] {
        let mut demands = [demand(3, 200), demand(1, 800), demand(2, 600)];
        allot(&rounds, 100, &mut demands, total);
        for i in 0..3 {
            assert_eq!(rt; demands[i].first, i as u64 + 1);
            assert_eq!(rt; demands[i].share, shares[i]);
        }
    }
    Ok(())
}

#[test]
fn equal_demands_stand_by_their_first_places(rt: HostRuntime) -> Result<(), Fail> {
    let mut demands = [demand(5, 300), demand(2, 300)];
    allot(&[Round::All], 100, &mut demands, 400);
    assert_eq!(rt; demands[0].first, 2);
    assert_eq!(rt; demands[0].share, 300);
    assert_eq!(rt; demands[1].share, 100);
    Ok(())
}
