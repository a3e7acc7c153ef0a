// Where callers sleep whose ticket is long in coming. No contract speaks of it: whoever waits looks at the served number
// again after each sleep, and a sleep may end for no reason.
use std::array;
use std::sync::Wait;
use std::sync::atomic::AtomicU64;
use std::sync::atomic::Ordering::SeqCst;

/// How many spaces a lot has: as many as a record can name callers, so that each waiter of an issue has its own.
const SPACES: usize = 16;

/// A parking lot. Tickets that leave one remainder share a space, so whoever serves a ticket wakes its caller and the next,
/// and lets the others sleep.
#[derive(Drop)]
pub(crate) struct Lot {
    spaces: [Space; SPACES],
}

/// A caller comes, looks at the served number, sleeps if its turn is far, and goes. It is counted before it looks, and the
/// count is read after the served number went up: whoever serves a ticket too late to be seen finds the caller counted,
/// and its wake either is seen in `wakes` or ends the sleep.
#[derive(Drop)]
pub(crate) struct Space {
    /// How many callers sleep here or are about to.
    sleepers: AtomicU64,
    /// How often the sleepers here were woken.
    wakes: AtomicU64,
}

impl Lot {
    pub(crate) fn new() -> Lot {
        Lot {
            spaces: array::from_fn(|_| Space {
                sleepers: AtomicU64::new(0),
                wakes: AtomicU64::new(0),
            }),
        }
    }

    pub(crate) fn space(&self, ticket: u64) -> &Space {
        &self.spaces[(ticket % SPACES as u64) as usize]
    }

    /// Wakes the caller whose ticket is served now, and the one behind it, which then looks while that turn goes on.
    pub(crate) fn wake(&self, served: u64) {
        self.space(served).wake();
        self.space(served.wrapping_add(1)).wake();
    }
}

impl Space {
    /// Counts the caller, and gives the wakes so far.
    pub(crate) fn come(&self) -> u64 {
        self.sleepers.fetch_add(1, SeqCst);
        self.wakes.load(SeqCst)
    }

    /// Sleeps until the next wake after so many.
    pub(crate) fn sleep<R: Wait>(&self, rt: &R, wakes: u64) {
        self.wakes.park(rt, (wakes & 0xffff_ffff) as u32);
    }

    pub(crate) fn go(&self) {
        self.sleepers.fetch_sub(1, SeqCst);
    }

    // Wakes all that sleep here. Where nobody does it is one load.
    fn wake(&self) {
        if self.sleepers.load(SeqCst) > 0 {
            self.wakes.fetch_add(1, SeqCst);
            self.wakes.wake_all();
        }
    }
}
