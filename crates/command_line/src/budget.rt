ghost use Rattle.std.specs.Prelude.{◌≡◌};
ghost use Rattle.command_line.specs.Budget.{IsBudget};

use std::marker::Model;

/// A number of conflicts that a search may meet before it gives up. Contracts see the number.
#[derive(Clone, Copy, Debug, PartialEq, Eq)]
pub struct Budget {
    conflicts: u32,
}

impl Model for Budget {
    ghost use Rattle.std.specs.Prelude.{ℕ};
    ghost use Rattle.command_line.specs.Budget.{IsBudget};

    ghost Value = { ℕ };

    ghost view = { λ a. a.conflicts };

    ghost invariant = { λ a. IsBudget a.conflicts };

    ghost inverse = { λ n. record { conflicts = n } };
}

impl Budget {
    /// The budget of a number of conflicts that may be allowed.
    pub fn of(conflicts: u32) -> Budget
        requires { IsBudget conflicts }
        ensures { result ≡ conflicts }
    {
        Budget { conflicts }
    }

    /// The number of conflicts.
    pub fn conflicts(self) -> u32
        ensures same { result ≡ self }
        ensures allowed { IsBudget result }
    {
        self.conflicts
    }
}
