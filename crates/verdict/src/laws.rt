ghost use Rattle.verdict.specs.Numbers.{NumbersInRange};

use refutation_log::steps_are_counted;

/// A law: the numbers of a log that resolves over a formula are those of clauses and variables, so
/// a text may have them.
pub fn numbers_in_range()
    ensures { NumbersInRange }
{
    // law: a log that resolves derives a clause for each step
    steps_are_counted();
}
