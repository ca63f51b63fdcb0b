ghost use Rattle.std.specs.Prelude.{◌≡◌, ◌≢◌, ◌≤◌, ◌∷◌, ℕ, List, codes, map, string_bytes, IfSome, MatchOption};
ghost use Rattle.dimacs.specs.Arguments.{GivesNoBudget, HasBudget, HasOptions, IsUsage};

use super::count::count_of;
use text_lines::numerals_differ;

/// The conflicts that are allowed if no number is given.
const DEFAULT_BUDGET: u32 = 10_000;

/// The most conflicts that may be allowed.
const LARGEST_BUDGET: u32 = 2_147_483_647;

/// What the arguments ask for.
#[derive(Clone, Copy, Debug)]
pub struct Options {
    /// A formula without a model is answered with a proof in LRAT form.
    pub lrat: bool,
    /// The conflicts that are allowed.
    pub budget: u32,
}

/// The options that the arguments give, if they are valid.
pub fn options_of(args: &[String]) -> Option<Options>
    ensures given { MatchOption result
        (IsUsage (map string_bytes args.now))
        (HasOptions (map string_bytes args.now)) }
    ensures range { IfSome result (λ options. (1 ≤ options.budget)
        × (options.budget ≤ 2147483647)) }
{
    match after_lrat(args) {
        Some(rest) => with_budget(true, rest),
        None => with_budget(false, args),
    }
}

/// The options with the budget that these arguments give.
fn with_budget(lrat: bool, args: &[String]) -> Option<Options>
    ensures given { MatchOption result
        (GivesNoBudget (map string_bytes args.now))
        (λ options. HasBudget (map string_bytes args.now) options.budget
        × (options.lrat ≡ lrat)) }
    ensures range { IfSome result (λ options. (1 ≤ options.budget)
        × (options.budget ≤ 2147483647)) }
{
    let budget = budget_of(args)?;
    Some(Options { lrat, budget })
}

/// The arguments after `--lrat`, if that is the first one.
fn after_lrat(args: &[String]) -> Option<&[String]>
    ensures { MatchOption result
        ((rest : List (List ℕ)) → map string_bytes args.now ≢ codes "--lrat" ∷ rest)
        (λ rest. map string_bytes args.now ≡ codes "--lrat" ∷ map string_bytes rest.now) }
{
    let (name, rest) = args.split_first()?;
    if name.as_bytes() == b"--lrat".as_slice() {
        Some(rest)
    } else {
        None
    }
}

/// The conflicts that the arguments allow, if they give a budget.
fn budget_of(args: &[String]) -> Option<u32>
    ensures given { MatchOption result
        (GivesNoBudget (map string_bytes args.now))
        (HasBudget (map string_bytes args.now)) }
    ensures range { IfSome result (λ budget. (1 ≤ budget) × (budget ≤ 2147483647)) }
{
    // law: two numbers have two numerals
    numerals_differ();
    match args {
        [] => Some(DEFAULT_BUDGET),
        [name, number] if name.as_bytes() == b"--budget".as_slice() => {
            let budget = count_of(number.as_bytes(), LARGEST_BUDGET)?;
            if budget == 0 { None } else { Some(budget) }
        }
        _ => None,
    }
}
