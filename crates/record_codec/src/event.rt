// Entries as fields of a record, and back.
ghost use Rattle.std.specs.Prelude.{◌≡◌, ◌<◌, ◌≤◌};
ghost use Rattle.mkt_base.specs.declared.units.TheConstants.{DAY_MS, NODES};
ghost use Rattle.record_codec.specs.Entry.{IsEntry, IsEvent, entry_of, event_of, fields_of, kind_of, limit_number, price_number, side_number, side_of, with_event};

use crate::row::Row;
use mkt_base::{Caller, Entry, Event, Kind, Moment, NodeNo, Participant, Price, Qty, Side};

// A record's fields with those of the event set.
fn with_event(row: Row, event: Event) -> Row
    ensures fields { result ≡ with_event event row }
    ensures numbers { IsEvent event }
{
    match event {
        Event::Order {
            participant,
            side,
            kind,
            qty,
        } => Row {
            kind: 1,
            participant: participant.0,
            side: side_number(side),
            quantity: qty.0,
            limit: limit_number(kind),
            price: price_number(kind),
            ..row
        },
        Event::Change {
            participant,
            target,
            kind,
            qty,
        } => Row {
            kind: 2,
            participant: participant.0,
            quantity: qty.0,
            target,
            limit: limit_number(kind),
            price: price_number(kind),
            ..row
        },
        Event::Cancel {
            participant,
            target,
        } => Row {
            kind: 3,
            participant: participant.0,
            target,
            ..row
        },
        Event::Clock { at } => Row {
            kind: 4,
            moment: at.ms(),
            ..row
        },
        Event::Crash { node } => Row {
            kind: 5,
            node: node.n(),
            ..row
        },
        Event::Rejoin { node } => Row {
            kind: 6,
            node: node.n(),
            ..row
        },
    }
}

fn side_number(side: Side) -> u8
    ensures { result ≡ side_number side }
{
    match side {
        Side::Buy => 1,
        Side::Sell => 2,
    }
}

fn limit_number(kind: Kind) -> u8
    ensures { result ≡ limit_number kind }
{
    match kind {
        Kind::Market => 1,
        Kind::Limit(_) => 2,
    }
}

fn price_number(kind: Kind) -> u32
    ensures { result ≡ price_number kind }
{
    match kind {
        Kind::Market => 0,
        Kind::Limit(price) => price.0,
    }
}

// The fields of an entry in a record of a form.
pub(crate) fn fields_of(form: u8, entry: &Entry) -> Row
    ensures fields { result ≡ fields_of form entry.now }
    ensures numbers { IsEntry entry.now }
{
    let row = Row {
        form,
        kind: 0,
        caller: entry.caller.0,
        own: entry.own,
        place: entry.place,
        participant: 0,
        side: 0,
        limit: 0,
        price: 0,
        quantity: 0,
        target: 0,
        moment: 0,
        node: 0,
    };
    with_event(row, entry.event)
}

fn side_of(number: u8) -> Side
    ensures { result ≡ side_of number }
{
    if number == 1 { Side::Buy } else { Side::Sell }
}

fn kind_of(limit: u8, price: u32) -> Kind
    ensures { result ≡ kind_of limit price }
{
    if limit == 1 {
        Kind::Market
    } else {
        Kind::Limit(Price(price))
    }
}

// The event of a record whose fields are right.
fn event_of(row: Row) -> Event
    requires moment { row.kind ≡ 4 → row.moment < DAY_MS }
    requires node { 5 ≤ row.kind → row.node < NODES }
    requires kind { (1 ≤ row.kind) × (row.kind ≤ 6) }
    ensures { result ≡ event_of row }
{
    let participant = Participant(row.participant);
    let qty = Qty(row.quantity);
    match row.kind {
        1 => Event::Order {
            participant,
            side: side_of(row.side),
            kind: kind_of(row.limit, row.price),
            qty,
        },
        2 => Event::Change {
            participant,
            target: row.target,
            kind: kind_of(row.limit, row.price),
            qty,
        },
        3 => Event::Cancel {
            participant,
            target: row.target,
        },
        4 => match Moment::new(row.moment) {
            Some(at) => Event::Clock { at },
            None => unreachable!(),
        },
        5 => match NodeNo::new(row.node) {
            Some(node) => Event::Crash { node },
            None => unreachable!(),
        },
        _ => match NodeNo::new(row.node) {
            Some(node) => Event::Rejoin { node },
            None => unreachable!(),
        },
    }
}

// The entry of a record whose fields are right.
pub(crate) fn entry_of(row: Row) -> Entry
    requires moment { row.kind ≡ 4 → row.moment < DAY_MS }
    requires node { 5 ≤ row.kind → row.node < NODES }
    requires kind { (1 ≤ row.kind) × (row.kind ≤ 6) }
    ensures { result ≡ entry_of row }
{
    Entry {
        place: row.place,
        caller: Caller(row.caller),
        own: row.own,
        event: event_of(row),
    }
}
