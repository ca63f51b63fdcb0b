ghost use Rattle.std.specs.Prelude.{◌≡◌};
ghost use Rattle.command_line.specs.ThreadCount.{IsThreadCount};

use std::marker::Model;

/// How many threads each role has; with 0 all roles share the one that called. Contracts see the
/// number.
#[derive(Clone, Copy, Debug, PartialEq, Eq)]
pub struct ThreadCount {
    threads: u32,
}

impl Model for ThreadCount {
    ghost use Rattle.std.specs.Prelude.{ℕ};
    ghost use Rattle.command_line.specs.ThreadCount.{IsThreadCount};

    ghost Value = { ℕ };

    ghost view = { λ a. a.threads };

    ghost invariant = { λ a. IsThreadCount a.threads };

    ghost inverse = { λ n. record { threads = n } };
}

impl ThreadCount {
    /// The count of threads that a role may have.
    pub fn of(threads: u32) -> ThreadCount
        requires { IsThreadCount threads }
        ensures { result ≡ threads }
    {
        ThreadCount { threads }
    }

    /// The number of threads.
    pub fn threads(self) -> u32
        ensures same { result ≡ self }
        ensures allowed { IsThreadCount result }
    {
        self.threads
    }
}
