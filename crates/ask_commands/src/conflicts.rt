ghost use Rattle.std.specs.Prelude.{ℕ, [], ◌∷◌, map, MatchOption};
ghost use Rattle.ask_commands.specs.AskArguments.{SetsConflicts, WritesBudget};

use command_line::Budget;
use text_lines::read_decimal;

/// The number of conflicts if no argument says one.
const DEFAULT: u32 = 10_000;

/// How many conflicts the arguments allow, if they say a number that may be allowed or nothing.
pub(crate) fn conflicts_of(args: &[&[u8]]) -> Option<Budget>
    ensures { MatchOption result
        ((n : ℕ) → ¬ SetsConflicts (map (λ arg. arg.now) args.now) n)
        (SetsConflicts (map (λ arg. arg.now) args.now)) }
{
    match args {
        [] => Some(Budget::of(DEFAULT)),
        [joined] => joined_conflicts(joined),
        [option, text] => next_conflicts(option, text),
        _ => None,
    }
}

/// The number after `=` in one argument.
fn joined_conflicts(joined: &[u8]) -> Option<Budget>
    ensures { MatchOption result
        ((n : ℕ) → ¬ SetsConflicts (joined.now ∷ []) n) (SetsConflicts (joined.now ∷ [])) }
{
    budget_of(joined.strip_prefix(b"--conflicts=")?)
}

/// The number in the second of two arguments.
fn next_conflicts(option: &[u8], text: &[u8]) -> Option<Budget>
    ensures { MatchOption result
        ((n : ℕ) → ¬ SetsConflicts (option.now ∷ text.now ∷ []) n)
        (SetsConflicts (option.now ∷ text.now ∷ [])) }
{
    if option == b"--conflicts".as_slice() {
        budget_of(text)
    } else {
        None
    }
}

/// The number that the text is in decimal, if it may be allowed.
fn budget_of(text: &[u8]) -> Option<Budget>
    ensures { MatchOption result ((n : ℕ) → ¬ WritesBudget text.now n) (WritesBudget text.now) }
{
    let value = match read_decimal(text, 20_000) {
        Ok(value) => value,
        Err(_) => return None,
    };
    if value < 1 {
        return None;
    }
    Some(Budget::of(value as u32))
}
