ghost use Rattle.std.specs.Prelude.{◌≡◌, ◌==◌, ◌↔◌, OnOk, OnErr, IsErr, IsTrue};
ghost use Rattle.std.specs.List.{list_any};
ghost use Rattle.bspl_io.specs.Schedule.{unstarted, is_due, after_call};
ghost use Rattle.bspl_io.specs.Faults.{HasCounted};

use super::source::Failed;
use list_base::NumberList;

/// Which calls fail, counted from 1, and how many bytes the others move at most.
#[derive(Drop)]
pub struct Schedule {
    pub piece: usize,
    pub fails: NumberList,
    pub calls: u64,
    pub faults: u64,
}

impl Schedule {
    /// A schedule before its first call.
    pub fn new(piece: usize, fails: NumberList) -> Schedule
        ensures { result ≡ unstarted piece fails }
    {
        Schedule {
            piece,
            fails,
            calls: 0,
            faults: 0,
        }
    }

    /// Counts a call, and says whether it fails.
    pub fn call(&mut self) -> Result<(), Failed>
        ensures listed { IsErr result ↔ IsTrue (is_due self.old) }
        ensures after { self.new ≡ after_call self.old }
        ensures counted { OnErr result (HasCounted self.old.faults self.new.faults) }
        ensures still { OnOk result (self.new.faults ≡ self.old.faults) }
    {
        self.calls = self.calls.saturating_add(1);
        if is_listed(self.fails.as_slice(), self.calls) {
            self.faults = self.faults.saturating_add(1);
            return Err(Failed);
        }
        Ok(())
    }
}

/// Whether the number is among these.
fn is_listed(numbers: &[u32], number: u64) -> bool
    ensures { result ≡ list_any (λ n. n == number) numbers.now }
{
    numbers.iter().any(|n| u64::from(*n) == number)
}
