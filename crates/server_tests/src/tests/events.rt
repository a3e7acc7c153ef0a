// Events of three participants.
ghost use Rattle.std.specs.Prelude.{◌≡◌, ◌<◌, true};
ghost use Rattle.issue_machine.specs.Journal.{IsEventOf};

use mkt_base::{DAY_MS, Event, Kind, Moment, NODES, NodeNo, Participant, Price, Qty, Side};

// An order for 100 shares at a limit, in tenths of a yen.
fn order(participant: u16, side: Side, price: u32) -> Event
    requires { participant < 3 }
    ensures { IsEventOf 3 result }
{
    Event::Order {
        participant: Participant(participant),
        side,
        kind: Kind::Limit(Price(price)),
        qty: Qty(100),
    }
}

/// The clock at a moment.
pub(super) fn clock(ms: u32) -> Event
    requires { ms < 86400000 }
    ensures { IsEventOf 3 result }
{
    let Some(at) = Moment::new(ms) else {
        unreachable!()
    };
    Event::Clock { at }
}

fn crash(n: u8) -> Event
    requires { n < 3 }
    ensures { IsEventOf 3 result }
{
    let Some(node) = NodeNo::new(n) else {
        unreachable!()
    };
    Event::Crash { node }
}

/// The event of an act: b a buy and s a sell, 0 to 2 the crash of a node, and the clock: e at eight, c at nine, l a little later.
pub(super) fn event_of(act: u8) -> Event
    ensures { IsEventOf 3 result }
{
    match act {
        b'b' => order(0, Side::Buy, 19_990),
        b's' => order(1, Side::Sell, 20_010),
        b'0' => crash(0),
        b'1' => crash(1),
        b'2' => crash(2),
        b'c' => clock(32_400_000),
        b'l' => clock(32_500_000),
        _ => clock(28_800_000),
    }
}

/// The event that a caller enters with this own number: orders at ten prices of both sides, and some cancels of the order before.
pub(super) fn nth(caller: u16, own: u32) -> Event
    ensures { IsEventOf 3 result }
{
    let participant = caller % 3;
    if own % 10 == 9 {
        return Event::Cancel {
            participant: Participant(participant),
            target: own - 1,
        };
    }
    let step = own % 5 * 10;
    if own % 2 == u32::from(caller % 2) {
        order(participant, Side::Buy, 19_980 + step)
    } else {
        order(participant, Side::Sell, 19_990 + step)
    }
}

/// Whether it is an event of three participants.
pub(super) fn is_known(event: &Event) -> bool
    ensures { result ≡ true → IsEventOf 3 event.now }
{
    match event {
        Event::Order { participant, .. } => participant.0 < 3,
        Event::Change { participant, .. } => participant.0 < 3,
        Event::Cancel { participant, .. } => participant.0 < 3,
        Event::Clock { at } => at.ms() < DAY_MS,
        Event::Crash { node } => node.n() < NODES,
        Event::Rejoin { node } => node.n() < NODES,
    }
}
