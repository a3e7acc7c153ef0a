// Records of entries of every kind, and the first wrong field of others.
use mkt_base::{Caller, Entry, Event, Kind, Moment, NodeNo, Participant, Price, Qty, Side};
use record_codec::{BadRecord, decode, encode};
use std::test::Fail;

// Of each kind an event.
fn event(n: u8) -> Option<Event> {
    let participant = Participant(258);
    let target = 66_051;
    Some(match n {
        1 => Event::Order {
            participant: Participant(0),
            side: Side::Buy,
            kind: Kind::Market,
            qty: Qty(300),
        },
        2 => Event::Order {
            participant,
            side: Side::Sell,
            kind: Kind::Limit(Price(1_000_000_000)),
            qty: Qty(u32::MAX),
        },
        3 => Event::Change {
            participant,
            target,
            kind: Kind::Market,
            qty: Qty(256),
        },
        4 => Event::Change {
            participant,
            target,
            kind: Kind::Limit(Price(1)),
            qty: Qty(0),
        },
        5 => Event::Cancel {
            participant: Participant(u16::MAX),
            target: u32::MAX,
        },
        6 => Event::Clock {
            at: Moment::new(86_399_999)?,
        },
        7 => Event::Crash {
            node: NodeNo::new(0)?,
        },
        8 => Event::Rejoin {
            node: NodeNo::new(2)?,
        },
        _ => return None,
    })
}

// The entry of caller 1 at place 1, its own number 1.
fn second(event: Event) -> Entry {
    Entry {
        place: 1,
        caller: Caller(1),
        own: 1,
        event,
    }
}

// The entry of the greatest numbers.
fn far(event: Event) -> Entry {
    Entry {
        place: u64::MAX,
        caller: Caller(u16::MAX),
        own: u32::MAX,
        event,
    }
}

#[test]
fn an_entry_has_its_record(rt: HostRuntime) -> Result<(), Fail> {
    for (n, want) in [
        (
            1,
            b"\x01\x01\0\x01\0\0\0\x01\0\0\0\0\0\0\0\x01\0\0\x01\x01\0\0\0\0\0\0\x01\x2c\0\0\0\0\0\0\0\0\0\0\0\0\0\0\0\0\0\0\0\0",
        ),
        (
            2,
            b"\x01\x01\0\x01\0\0\0\x01\0\0\0\0\0\0\0\x01\x01\x02\x02\x02\x3b\x9a\xca\0\xff\xff\xff\xff\0\0\0\0\0\0\0\0\0\0\0\0\0\0\0\0\0\0\0\0",
        ),
        (
            3,
            b"\x01\x02\0\x01\0\0\0\x01\0\0\0\0\0\0\0\x01\x01\x02\0\x01\0\0\0\0\0\0\x01\0\0\x01\x02\x03\0\0\0\0\0\0\0\0\0\0\0\0\0\0\0\0",
        ),
        (
            4,
            b"\x01\x02\0\x01\0\0\0\x01\0\0\0\0\0\0\0\x01\x01\x02\0\x02\0\0\0\x01\0\0\0\0\0\x01\x02\x03\0\0\0\0\0\0\0\0\0\0\0\0\0\0\0\0",
        ),
        (
            5,
            b"\x01\x03\0\x01\0\0\0\x01\0\0\0\0\0\0\0\x01\xff\xff\0\0\0\0\0\0\0\0\0\0\xff\xff\xff\xff\0\0\0\0\0\0\0\0\0\0\0\0\0\0\0\0",
        ),
        (
            6,
            b"\x01\x04\0\x01\0\0\0\x01\0\0\0\0\0\0\0\x01\0\0\0\0\0\0\0\0\0\0\0\0\0\0\0\0\x05\x26\x5b\xff\0\0\0\0\0\0\0\0\0\0\0\0",
        ),
        (
            7,
            b"\x01\x05\0\x01\0\0\0\x01\0\0\0\0\0\0\0\x01\0\0\0\0\0\0\0\0\0\0\0\0\0\0\0\0\0\0\0\0\0\0\0\0\0\0\0\0\0\0\0\0",
        ),
        (
            8,
            b"\x01\x06\0\x01\0\0\0\x01\0\0\0\0\0\0\0\x01\0\0\0\0\0\0\0\0\0\0\0\0\0\0\0\0\0\0\0\0\x02\0\0\0\0\0\0\0\0\0\0\0",
        ),
    ] {
        let entry = second(event(n).ok_or("an event")?);
        let rec = encode(&entry);
        assert_eq!(rt; rec.as_slice(), want.as_slice(), "at {n}");
        assert_eq!(rt; decode(&rec, 1), Ok(entry), "at {n}");
        assert_eq!(rt; decode(&rec, 2), Err(BadRecord(8)), "at {n}");
        let entry = far(event(n).ok_or("an event")?);
        assert_eq!(rt; decode(&encode(&entry), u64::MAX), Ok(entry), "at {n}");
    }
    Ok(())
}

// A record with another byte at an offset.
fn changed(mut rec: [u8; 48], at: usize, byte: u8) -> [u8; 48] {
    if let Some(place) = rec.get_mut(at) {
        *place = byte;
    }
    rec
}

#[test]
fn the_first_wrong_field_is_told(rt: HostRuntime) -> Result<(), Fail> {
    for (n, at, byte, want) in [
        (1, 0, 0, 0),
        (1, 0, 2, 0),
        (1, 1, 0, 1),
        (1, 1, 7, 1),
        (1, 8, 1, 8),
        (1, 15, 2, 8),
        (6, 17, 1, 16),
        (8, 16, 1, 16),
        (1, 18, 0, 18),
        (1, 18, 3, 18),
        (3, 18, 1, 18),
        (1, 19, 0, 19),
        (3, 19, 3, 19),
        (5, 19, 1, 19),
        (1, 23, 1, 20),
        (2, 19, 1, 20),
        (5, 27, 1, 24),
        (1, 31, 1, 28),
        (6, 31, 1, 28),
        (6, 34, 92, 32),
        (1, 35, 1, 32),
        (7, 32, 1, 32),
        (8, 36, 3, 36),
        (6, 36, 1, 36),
        (1, 37, 1, 37),
        (2, 38, 1, 38),
        (3, 39, 1, 39),
        (4, 40, 1, 40),
        (5, 41, 1, 41),
        (6, 42, 1, 42),
        (7, 43, 1, 43),
        (8, 44, 1, 44),
        (1, 45, 1, 45),
        (2, 46, 1, 46),
        (3, 47, 255, 47),
    ] {
        let rec = encode(&second(event(n).ok_or("an event")?));
        assert_eq!(rt;
            decode(&changed(rec, at, byte), 1),
            Err(BadRecord(want)),
            "{n} at {at}"
        );
        let twice = changed(changed(rec, 47, 1), at, byte);
        assert_eq!(rt; decode(&twice, 1), Err(BadRecord(want)), "{n} at {at}");
    }
    Ok(())
}
