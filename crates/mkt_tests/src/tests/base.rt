// The plain types, and the watches.
use mkt_base::{
    MemWatch, Moment, Name, NoWatch, NodeNo, Outcome, Output, Participant, Phase, Price, Quote,
    QuoteKind, Rows, Side, Sums, Trade, Watch,
};
use std::test::Fail;

#[test]
fn a_number_is_a_moment_or_a_node(rt: HostRuntime) {
    for (ms, want) in [(0, true), (86_399_999, true), (86_400_000, false)] {
        let moment = Moment::new(ms);
        assert_eq!(rt; moment.map(|at| at.ms()), want.then_some(ms), "at {ms}");
    }
    for (n, want) in [(0, true), (2, true), (3, false)] {
        let node = NodeNo::new(n);
        assert_eq!(rt; node.map(|node| node.n()), want.then_some(n), "at {n}");
    }
}

#[test]
fn names_and_rows_give_back_what_they_hold(rt: HostRuntime) -> Result<(), Fail> {
    let alloc = rt.alloc();
    let name = Name::new(String::from_str(alloc, "g1")?);
    assert_eq!(rt; name.as_str(), "g1");
    assert_eq!(rt; name.into_string().as_str(), "g1");
    let rows = Rows::new(vec![in alloc; 3, 1]?);
    assert_eq!(rt; rows.as_slice(), [3, 1].as_slice());
    assert_eq!(rt; rows.into_vec().as_slice(), [3, 1].as_slice());
    Ok(())
}

const SUMS: Sums = Sums {
    price: Price(1010),
    buys: 5,
    above: 4,
    sells: 3,
    below: 2,
};

const TRADE: Trade = Trade {
    price: Price(1010),
    qty: 3,
    buy: 7,
    sell: 8,
};

// Tells a watch one output of each kind, as a step may.
fn tell_each<W: Watch>(watch: &mut W, at: Moment) {
    let quote = Quote {
        kind: QuoteKind::Special,
        side: Side::Buy,
        price: Price(1020),
        due: Some(at),
    };
    watch.due(at);
    watch.phase(Phase::Trading);
    watch.auction(Price(1000), Price(990), Price(1010));
    if watch.wants_rejected() {
        watch.rejected(SUMS);
    }
    watch.outcome(Outcome::Calm {
        bid: None,
        ask: Some(Price(1010)),
    });
    watch.share(Participant(2), 300);
    watch.trade(TRADE);
    watch.quote(Some(quote));
    watch.quote(None);
}

#[test]
fn a_watch_in_memory_keeps_its_outputs(rt: HostRuntime) -> Result<(), Fail> {
    let at = Moment::new(32_400_000).ok_or("a moment of the day")?;
    tell_each(&mut NoWatch, at);
    assert!(rt; !NoWatch.wants_rejected());
    let mut watch = MemWatch::new(rt.alloc());
    tell_each(&mut watch, at);
    assert_eq!(rt; watch.faults(), 0);
    // (where no fault is counted a clause says which outputs stand there, in their order)
    assert_eq!(rt; watch.outputs().len(), 9);
    assert_eq!(rt; watch.outputs().last(), Some(&Output::Quoted(None)));
    Ok(())
}
