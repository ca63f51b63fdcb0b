use clause_core::{Clause, ClauseList, Formula, Lit};
use list_base::{NoMemory, Seq};
use std::alloc::Global;

/// The variable of the number, negated if the number is below zero.
pub fn lit(number: i32) -> Lit {
    Lit {
        var: number.unsigned_abs(),
        positive: number > 0,
    }
}

/// The clause of these literals.
pub fn clause(alloc: Global, numbers: &[i32]) -> Result<Clause, NoMemory> {
    let mut lits = Seq::new(alloc);
    for number in numbers {
        lits.push(lit(*number))?;
    }
    Clause::of(alloc, lits.as_slice())
}

/// Appends the clause of these literals.
fn add_clause(alloc: Global, clauses: &mut ClauseList, numbers: &[i32]) -> Result<(), NoMemory> {
    clauses.push(clause(alloc, numbers)?)
}

/// The clauses, in order.
fn clauses_of(alloc: Global, clauses: &[&[i32]]) -> Result<ClauseList, NoMemory> {
    let mut list = Seq::new(alloc);
    for numbers in clauses {
        add_clause(alloc, &mut list, numbers)?;
    }
    Ok(list)
}

/// The formula over these variables of the clauses; nothing if a variable is another.
pub fn formula(alloc: Global, vars: u32, clauses: &[&[i32]]) -> Result<Option<Formula>, NoMemory> {
    Ok(Formula::of(vars, clauses_of(alloc, clauses)?))
}

/// Ends the clause of the literals so far.
fn end_clause(
    alloc: Global,
    clauses: &mut ClauseList,
    lits: &mut Seq<Lit>,
) -> Result<(), NoMemory> {
    clauses.push(Clause::of(alloc, lits.as_slice())?)?;
    *lits = Seq::new(alloc);
    Ok(())
}

/// Takes the words, up to the first that is no number; whether they are all numbers.
fn take_words(
    alloc: Global,
    clauses: &mut ClauseList,
    lits: &mut Seq<Lit>,
    text: &str,
) -> Result<bool, NoMemory> {
    for word in text.split_whitespace() {
        match word.parse::<i32>() {
            Ok(0) => end_clause(alloc, clauses, lits)?,
            Ok(number) => lits.push(lit(number))?,
            Err(_) => return Ok(false),
        }
    }
    Ok(true)
}

/// The clauses that a text spells, each ended by 0; nothing if a word is no number.
fn spelled_clauses(alloc: Global, text: &str) -> Result<Option<ClauseList>, NoMemory> {
    let mut clauses = Seq::new(alloc);
    let mut lits = Seq::new(alloc);
    let spelled = take_words(alloc, &mut clauses, &mut lits, text)?;
    Ok(if spelled { Some(clauses) } else { None })
}

/// The formula over these variables whose clauses a text spells, each ended by 0; nothing if a word
/// is no number or a variable is another.
pub fn formula_of(alloc: Global, vars: u32, text: &str) -> Result<Option<Formula>, NoMemory> {
    match spelled_clauses(alloc, text)? {
        Some(clauses) => Ok(Formula::of(vars, clauses)),
        None => Ok(None),
    }
}
