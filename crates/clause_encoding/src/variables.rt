ghost use Rattle.std.specs.Prelude.{◌≡◌, ◌≢◌, ◌<◌};
ghost use Rattle.clause_encoding.specs.Variables.{IsKind, IsSmall, order_variable, occurs};
ghost use Rattle.clause_encoding.specs.Variables.{stands_before, variable_count};

use clause_core::Lit;

/// The variables of a formula. Those from 1 to `kinds` say that an event kind occurs. Those past
/// `order_base` say which of two kinds stands before the other; what is between them is the
/// property's own.
#[derive(Clone, Copy, Debug)]
pub struct Variables {
    pub kinds: u32,
    pub order_base: u32,
}

impl Variables {
    /// The literal that says that the kind occurs.
    pub(crate) fn occurs(self, kind: u32) -> Lit
        ensures { result ≡ occurs kind }
    {
        Lit {
            var: kind,
            positive: true,
        }
    }

    /// The literal that says that kind `i` stands before kind `j`.
    pub fn before(self, i: u32, j: u32) -> Lit
        requires small { IsSmall self }
        requires kinds { (IsKind self i) × (IsKind self j) }
        requires apart { i ≢ j }
        ensures { result ≡ stands_before self i j }
    {
        if i < j {
            Lit {
                var: self.order(i, j),
                positive: true,
            }
        } else {
            Lit {
                var: self.order(j, i),
                positive: false,
            }
        }
    }

    /// The number of the variable that says that kind `i` stands before the later kind `j`.
    fn order(self, i: u32, j: u32) -> u32
        requires small { IsSmall self }
        requires kinds { (IsKind self i) × (IsKind self j) }
        requires in_order { i < j }
        ensures { result ≡ order_variable self i j }
    {
        self.order_base + (i - 1) * self.kinds - i * (i - 1) / 2 + (j - i)
    }

    /// How many variables there are.
    pub(crate) fn count(self) -> u32
        requires { IsSmall self }
        ensures { result ≡ variable_count self }
    {
        match self.kinds {
            0 => self.order_base,
            kinds => self.order_base + kinds * (kinds - 1) / 2,
        }
    }
}
