// The numbers of an entry are of their types, so a record can spell them. Nothing is computed here.
ghost use Rattle.std.specs.Prelude.{◌≡◌};
ghost use Rattle.record_codec.specs.Entry.{IsEntry, IsEvent, price_number};

use mkt_base::{Entry, Event, Kind};

fn price_number(kind: Kind) -> u32
    ensures { result ≡ price_number kind }
{
    match kind {
        Kind::Market => 0,
        Kind::Limit(price) => price.0,
    }
}

fn event_numbers(event: Event)
    ensures { IsEvent event }
{
    match event {
        Event::Order {
            participant,
            kind,
            qty,
            ..
        } => {
            let _ = (participant.0, price_number(kind), qty.0);
        }
        Event::Change {
            participant,
            target,
            kind,
            qty,
        } => {
            let _ = (participant.0, target, price_number(kind), qty.0);
        }
        Event::Cancel {
            participant,
            target,
        } => {
            let _ = (participant.0, target);
        }
        Event::Clock { at } => {
            let _ = at.ms();
        }
        Event::Crash { node } | Event::Rejoin { node } => {
            let _ = node.n();
        }
    }
}

pub(crate) fn entry_numbers(entry: &Entry)
    ensures { IsEntry entry.now }
{
    let _caller = entry.caller.0;
    let _own = entry.own;
    let _place = entry.place;
    event_numbers(entry.event);
}
