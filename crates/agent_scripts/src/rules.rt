ghost use Rattle.std.specs.Prelude.{◌<◌};

use super::statement::Rule;

/// A message that is not emitted at the multiples of a number.
#[derive(Clone, Copy, Debug)]
pub struct Declined {
    pub message: u32,
    pub every: u64,
    pub ghost some: { 0 < every },
}

/// The rule of the value that a message gives a parameter.
#[derive(Clone, Copy, Debug)]
pub struct ValueRule {
    pub message: u32,
    pub param: u32,
    pub rule: Rule,
}
