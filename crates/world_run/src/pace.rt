//! How workers keep one pace. No clause speaks of it: it decides when a turn is had, and not what it
//! does.

use std::sync::Wait;
use std::sync::atomic::{AtomicBool, AtomicU64, Ordering};
use std::time::Duration;

/// How often a worker that is ahead looks whether it still is.
const PACE_LOOKS: u32 = 200;

/// How long it sleeps between two looks.
const LOOK_MILLISECONDS: u64 = 1;

/// How many stretches of their passes all workers have begun, together, and whether one of them has
/// waited in vain.
#[derive(Drop)]
pub struct Pace {
    begun: AtomicU64,
    workers: u64,
    is_lost: AtomicBool,
}

/// How many stretches one worker has begun.
#[derive(Drop)]
pub struct Stride {
    begun: u64,
}

impl Stride {
    /// That of a worker which has begun nothing.
    pub fn new() -> Stride {
        Stride { begun: 0 }
    }
}

impl Pace {
    /// That of so many workers, none of which has begun.
    pub fn of(workers: u64) -> Pace {
        Pace {
            begun: AtomicU64::new(0),
            workers,
            is_lost: AtomicBool::new(false),
        }
    }

    /// The worker begins a stretch, as soon as all have begun as many as it had, in the mean. Once
    /// one worker has waited in vain, none waits again: it may be that others are held up for good,
    /// or have no thread and begin after it.
    pub fn begin<R: Wait>(&self, rt: &R, stride: &mut Stride) {
        self.begun.fetch_add(1, Ordering::SeqCst);
        self.begun.wake_all();
        let due = stride.begun.saturating_mul(self.workers);
        stride.begun = stride.begun.saturating_add(1);
        if !self.is_lost.load(Ordering::SeqCst) && !self.wait_for(rt, due) {
            self.is_lost.store(true, Ordering::SeqCst);
        }
    }

    /// Waits until so many stretches have begun, if that is soon. Answers whether they have.
    fn wait_for<R: Wait>(&self, rt: &R, due: u64) -> bool {
        for _look in 0..PACE_LOOKS {
            let begun = self.begun.load(Ordering::SeqCst);
            if begun >= due {
                return true;
            }
            // it sleeps if the word's low half is still this
            let low = (begun % 4_294_967_296) as u32;
            self.begun
                .park_timeout(rt, low, Duration::from_millis(LOOK_MILLISECONDS));
        }
        false
    }
}
