// Two gateways that meet at their work in each stage, and nodes that have each event as soon as its call has come back.
use super::call::{Answer, Call, RUN, answer_over};
use super::counted::{Puts, counted_rack};
use super::samples::one_issue;
use mkt_base::Caller;
use mkt_io::Gate;
use std::alloc::Global;
use std::hint::spin_loop;
use std::sync::Wait;
use std::sync::atomic::{AtomicU64, Ordering};
use std::test::Fail;
use std::thread::{Threads, yield_now};

// How often a gateway looks for the other before it goes on alone.
const LOOKS: u32 = 200_000_000;

// How many looks it makes before it lets others run.
const LOOKS_IN_A_ROW: u32 = 1 << 10;

const SCRIPT: &str = "g1 AAAA clock 09:00:00
g1 AAAA order p1 buy 19000 100
g2 AAAA order p2 sell 21000 100
g2 AAAA order p3 sell 22000 100
barrier
g1 AAAA order p1 buy 18000 100
g1 AAAA order p1 buy 17000 100
g2 AAAA order p2 sell 23000 100
g2 AAAA order p3 sell 24000 100
";

// The line between the two stages.
const BARRIER: u32 = 5;

// How many calls of both gateways have begun in a stage.
#[derive(Drop)]
struct Begun {
    first: AtomicU64,
    second: AtomicU64,
}

impl Begun {
    fn none() -> Begun {
        Begun {
            first: AtomicU64::new(0),
            second: AtomicU64::new(0),
        }
    }
}

// A gate that holds the first call of each gateway in a stage until the other gateway has come, and that compares, after each call, how many
// have come back with how many records each node has.
#[derive(Drop)]
struct Meeting<'a> {
    puts: &'a Puts,
    before: Begun,
    behind: Begun,
    missed: AtomicU64,
    back: AtomicU64,
    late: AtomicU64,
}

impl Meeting<'_> {
    // A gateway begins a call in the stage of which these are the counts.
    fn begin(&self, gateway: Caller, begun: &Begun) {
        match gateway.0 {
            1 => self.meet(&begun.first, &begun.second),
            _ => self.meet(&begun.second, &begun.first),
        }
    }

    // The count of its own calls goes up, and with the first of them it waits for the other gateway.
    fn meet(&self, own: &AtomicU64, other: &AtomicU64) {
        let is_first = own.fetch_add(1, Ordering::SeqCst) == 0;
        if is_first && !self.has_missed() && !is_met(other) {
            self.missed.fetch_add(1, Ordering::SeqCst);
        }
    }

    // A meeting was missed, so the test has failed and waits for no other.
    fn has_missed(&self) -> bool {
        self.missed.load(Ordering::SeqCst) > 0
    }
}

// Looks until a count is above 0, and answers whether it is.
fn is_met(count: &AtomicU64) -> bool {
    for look in 0..LOOKS {
        if count.load(Ordering::SeqCst) > 0 {
            return true;
        }
        if look % LOOKS_IN_A_ROW == 0 {
            yield_now();
        } else {
            spin_loop();
        }
    }
    false
}

impl Gate for Meeting<'_> {
    fn at(&self, gateway: Caller, line: u32) {
        if line < BARRIER {
            self.begin(gateway, &self.before);
        } else {
            self.begin(gateway, &self.behind);
        }
    }

    fn after(&self, _gateway: Caller, _line: u32) {
        let before = self.back.fetch_add(1, Ordering::SeqCst);
        if self.puts.least() <= before {
            self.late.fetch_add(1, Ordering::SeqCst);
        }
    }
}

// What became of a run: its answer, the meetings that were missed, the calls that came back, after how many of them a node had too few records,
// and the least count of records that a node has taken in the end.
#[derive(Drop)]
struct Met {
    answer: Answer,
    missed: u64,
    back: u64,
    late: u64,
    least: u64,
}

fn run_with_meetings<T: Threads + Wait + Sync>(rt: &T, alloc: Global) -> Result<Met, Fail> {
    let puts = Puts::none();
    let gate = Meeting {
        puts: &puts,
        before: Begun::none(),
        behind: Begun::none(),
        missed: AtomicU64::new(0),
        back: AtomicU64::new(0),
        late: AtomicU64::new(0),
    };
    let rules = one_issue(alloc)?;
    let mut rack = counted_rack(alloc, &puts)?;
    let call = Call {
        rules: rules.as_str(),
        script: SCRIPT,
        ..RUN
    };
    let answer = answer_over(rt, alloc, call, &mut rack, &gate)?;
    Ok(Met {
        answer,
        missed: gate.missed.load(Ordering::SeqCst),
        back: gate.back.load(Ordering::SeqCst),
        late: gate.late.load(Ordering::SeqCst),
        least: puts.least(),
    })
}

// Where one gateway acts behind the other the looks are used up; where the nodes are written later than the turns are made, some are late.
#[test]
fn gateways_meet_and_nodes_are_written(rt: HostRuntime) -> Result<(), Fail> {
    let met = run_with_meetings(&rt, rt.alloc())?;
    assert_eq!(rt; met.answer.err.as_str(), "");
    assert_eq!(rt; met.answer.status, 0);
    assert_eq!(rt; (met.missed, met.back, met.late, met.least), (0, 8, 0, 8));
    Ok(())
}
