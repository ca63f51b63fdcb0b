use adapter::Gate;
use std::sync::atomic::{AtomicU64, Ordering};
use std::thread;

/// How often a worker looks for another one before it gives up: far longer than any start of a
/// thread takes.
const PATIENCE: u64 = 100_000_000;

/// The same for a worker that waits until thousands of turns are done.
const LONG_PATIENCE: u64 = 1_000_000_000;

/// Waits until the count is at least that high. If it gives up, that is noted.
fn wait_for(count: &AtomicU64, least: u64, patience: u64, late: &AtomicU64) {
    for _ in 0..patience {
        if count.load(Ordering::SeqCst) >= least {
            return;
        }
        thread::yield_now();
    }
    late.store(1, Ordering::SeqCst);
}

/// Role 0 stays within its lock until role 1 is within its own, and role 1 takes none before that.
/// So two roles are within their locks at one time, or the gate is late.
#[derive(Drop)]
pub(crate) struct TwoRoles {
    first: AtomicU64,
    second: AtomicU64,
    late: AtomicU64,
}

impl TwoRoles {
    pub(crate) fn new() -> TwoRoles {
        TwoRoles {
            first: AtomicU64::new(0),
            second: AtomicU64::new(0),
            late: AtomicU64::new(0),
        }
    }

    /// Whether both roles came, and neither waited in vain.
    pub(crate) fn is_met(&self) -> bool {
        self.first.load(Ordering::SeqCst) == 1
            && self.second.load(Ordering::SeqCst) == 1
            && self.late.load(Ordering::SeqCst) == 0
    }
}

impl Gate for TwoRoles {
    fn before(&self, role: u32, _thread: u32) {
        if role == 1 {
            wait_for(&self.first, 1, PATIENCE, &self.late);
        }
    }

    fn at(&self, role: u32, _thread: u32) {
        if role == 0 {
            self.first.store(1, Ordering::SeqCst);
            wait_for(&self.second, 1, PATIENCE, &self.late);
        }
        if role == 1 {
            self.second.store(1, Ordering::SeqCst);
        }
    }
}

/// The two threads of role 0 wait for each other before their first turn.
#[derive(Drop)]
pub(crate) struct TwoThreads {
    first: AtomicU64,
    second: AtomicU64,
    late: AtomicU64,
}

impl TwoThreads {
    pub(crate) fn new() -> TwoThreads {
        TwoThreads {
            first: AtomicU64::new(0),
            second: AtomicU64::new(0),
            late: AtomicU64::new(0),
        }
    }

    /// Whether both threads came, and neither waited in vain.
    pub(crate) fn is_met(&self) -> bool {
        self.first.load(Ordering::SeqCst) == 1
            && self.second.load(Ordering::SeqCst) == 1
            && self.late.load(Ordering::SeqCst) == 0
    }
}

impl Gate for TwoThreads {
    fn before(&self, role: u32, thread: u32) {
        if role != 0 {
            return;
        }
        let (own, other) = if thread == 0 {
            (&self.first, &self.second)
        } else {
            (&self.second, &self.first)
        };
        own.store(1, Ordering::SeqCst);
        wait_for(other, 1, PATIENCE, &self.late);
    }

    fn at(&self, _role: u32, _thread: u32) {}
}

/// Role 1 begins once role 0 has had so many turns, and role 2 once role 1 has had so many.
#[derive(Drop)]
pub(crate) struct OneAfterTheOther {
    turns: u64,
    first: AtomicU64,
    second: AtomicU64,
    late: AtomicU64,
}

impl OneAfterTheOther {
    pub(crate) fn of(turns: u64) -> OneAfterTheOther {
        OneAfterTheOther {
            turns,
            first: AtomicU64::new(0),
            second: AtomicU64::new(0),
            late: AtomicU64::new(0),
        }
    }

    /// Whether no role waited in vain.
    pub(crate) fn is_met(&self) -> bool {
        self.late.load(Ordering::SeqCst) == 0
    }
}

impl Gate for OneAfterTheOther {
    fn before(&self, role: u32, _thread: u32) {
        if role == 1 {
            wait_for(&self.first, self.turns, LONG_PATIENCE, &self.late);
        }
        if role == 2 {
            wait_for(&self.second, self.turns, LONG_PATIENCE, &self.late);
        }
    }

    fn at(&self, role: u32, _thread: u32) {
        if role == 0 {
            self.first.fetch_add(1, Ordering::SeqCst);
        }
        if role == 1 {
            self.second.fetch_add(1, Ordering::SeqCst);
        }
    }
}
