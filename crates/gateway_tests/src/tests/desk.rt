// A desk in memory, which answers from a list.
ghost use Rattle.std.specs.Prelude.{◌≡◌, ◌+◌, ◌-◌, ◌*◌, ◌^◌, ◌<◌, ◌≤◌, true, Some, length, vec_len, vec_capacity, OnSome};
ghost use Rattle.mkt_base.specs.Desk.{stop_with};
ghost use Rattle.mkt_base.specs.declared.event.Event.{Event};
ghost use Rattle.mkt_base.specs.declared.journal.Halt.{Halt};
ghost use Rattle.mkt_base.specs.declared.journal.TurnStop.TheVariants.{NoNode};
ghost use Rattle.gateway_tests.specs.Entered.{AreWithin, entered_in};

use mkt_base::{Board, Desk, Event, Halt, Phase, Price, Reply, Stopped, TurnStop};
use std::alloc::{AllocError, Global};
use std::sync::Wait;

// What becomes of an event that is submitted.
#[derive(Clone, Copy, Debug, PartialEq, Eq)]
pub enum Turn {
    // It is entered, behind so many entries of other callers.
    Entered { others: u8 },
    // The journal is full.
    Full,
}

// A desk of an issue. Each event that is submitted takes the next turn; behind the last one no node is left.
#[derive(Drop)]
pub struct ListDesk {
    issue: u16,
    turns: Vec<Turn>,
    // how many turns were taken
    taken: usize,
    made: Vec<Event>,
    // the places of these events in the journal
    places: Vec<u64>,
    seen: u64,
    stop: Option<Stopped>,
    halt: Option<Halt>,
    ended: bool,
    ghost left: { taken ≤ vec_len turns },
    ghost room: { vec_len made + (vec_len turns - taken) ≤ vec_capacity made },
    ghost room_for_places: { vec_len places + (vec_len turns - taken) ≤ vec_capacity places },
    ghost each: { length places.items ≡ length made.items },
    ghost small: { seen + 256 * (vec_len turns - taken) < 2 ^ 64 },
    ghost within: { AreWithin seen places.items },
    ghost no_node: { (event : Event) → stop ≡ Some (record { event = event; cause = NoNode }) → ended ≡ true },
    ghost halted: { (h : Halt) → halt ≡ Some h → ended ≡ true },
}

impl ListDesk {
    // The desk of an issue, which has seen nothing yet but perhaps a halt.
    pub fn make(
        alloc: Global,
        issue: u16,
        turns: Vec<Turn>,
        halt: Option<Halt>,
    ) -> Result<ListDesk, AllocError>
        requires { vec_len turns < 1000 }
    {
        let made = Vec::with_capacity(alloc, turns.len())?;
        let places = Vec::with_capacity(alloc, turns.len())?;
        let ended = halt.is_some();
        Ok(ListDesk {
            issue,
            turns,
            taken: 0,
            made,
            places,
            seen: 0,
            stop: None,
            halt,
            ended,
        })
    }

    // The events that it has entered.
    pub fn made(&self) -> &[Event] {
        &self.made
    }

    // The turn that comes next.
    fn turn(&self) -> Option<Turn>
        ensures left { OnSome result (self.now.taken < vec_len self.now.turns) }
        ensures quiet { self.now.ended ≡ true → result ≡ None }
    {
        if self.ended {
            return None;
        }
        self.turns.get(self.taken).copied()
    }
}

// The stop that is kept after one more.
fn first_stop(kept: &Option<Stopped>, event: &Event, cause: TurnStop) -> Option<Stopped>
    ensures { result ≡ stop_with kept.now event.now (Err cause) }
{
    match kept {
        Some(stopped) => Some(*stopped),
        None => Some(Stopped {
            event: *event,
            cause,
        }),
    }
}

impl Desk for ListDesk {
    type Fixed = u16;

    ghost fixed = { λ d. d.issue };

    ghost takes = { λ issue event. Unit {0} };

    ghost state = { λ d. record { made = d.made.items; seen = d.seen; stop = d.stop; halt = d.halt; ended = d.ended } };

    ghost tells = { λ d board made. (board.length ≤ d.seen) × (entered_in board.length d.places.items ≡ made) };

    fn submit<W: Wait>(&mut self, _rt: &W, event: Event) -> Result<Reply, TurnStop> {
        match self.turn() {
            Some(Turn::Entered { others }) => {
                let place = self.seen + u64::from(others);
                self.made.push_reserved(event);
                self.places.push_reserved(place);
                self.seen = place + 1;
                self.taken += 1;
                Ok(Reply::Moment { steps: 0 })
            }
            Some(Turn::Full) => {
                let cause = TurnStop::JournalFull {
                    length: self.seen,
                    up: 3,
                    capacity: self.seen,
                };
                self.stop = first_stop(&self.stop, &event, cause);
                self.taken += 1;
                Err(cause)
            }
            None => {
                self.stop = first_stop(&self.stop, &event, TurnStop::NoNode);
                self.ended = true;
                Err(TurnStop::NoNode)
            }
        }
    }

    fn show<W: Wait>(&mut self, _rt: &W) -> Board {
        Board {
            length: self.seen,
            phase: Phase::Idle,
            last: Price(u32::from(self.issue)),
            quote: None,
            bid: None,
            ask: None,
        }
    }

    fn stop(&self) -> Option<Stopped> {
        self.stop
    }

    ghost sound = { λ d. record { no_node = d.no_node; halted = d.halted } };
}
