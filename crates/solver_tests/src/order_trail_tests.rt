ghost use Rattle.std.specs.Prelude.{◌≡◌, ◌<◌, None, All, IfOk, IsTrue, length};
ghost use Rattle.std.specs.Bool.{OnTrue};
ghost use Rattle.clause_core.specs.Clause.{VariablesExist};
ghost use Rattle.order_axioms.specs.Order.{order_list};
ghost use Rattle.sat_trail.specs.Entry.{values_of};
ghost use Rattle.sat_trail.specs.State.{IsNumberUpTo};

use super::formulas::{clause, formula, lit};
use super::trail_tests::{Call, Row, Set, Step};
use clause_core::{Formula, Lit};
use list_base::{NoMemory, Seq};
use order_axioms::{Order, OrderNumbers};
use order_propagator::OrderTrail;
use std::alloc::Global;
use std::test::Fail;

/// The numbers of kinds, and rows over their orders: the variables of the pairs come first. The
/// order of three kinds has the clauses [-1, 2, -3] and [1, -2, 3]; that of four has eight, of
/// which the first is [-1, 2, -4], the fifth [-2, 3, -6] and the seventh [-4, 5, -6].
const ROWS: &[(u32, Row)] = &[
    // 1 before 2, and 2 before 3
    (
        3,
        Row {
            vars: 3,
            clauses: &[&[1], &[3]],
            steps: &[Step {
                call: Call::Propagate(None),
                ready: true,
                live: &[1, 2, 3, 4],
                set: &[
                    Set::Forced(1, 0, 3),
                    Set::Forced(3, 0, 4),
                    Set::Forced(2, 0, 1),
                ],
            }],
        },
    ),
    // the same, and 3 before 1
    (
        3,
        Row {
            vars: 3,
            clauses: &[&[1], &[3], &[-2]],
            steps: &[Step {
                call: Call::Propagate(Some(1)),
                ready: false,
                live: &[1, 2, 3, 4, 5],
                set: &[
                    Set::Forced(1, 0, 3),
                    Set::Forced(3, 0, 4),
                    Set::Forced(-2, 0, 5),
                ],
            }],
        },
    ),
    // 1 before 2, 2 before 3, 3 before 4; then 1 before 2, and 3 before 1
    (
        4,
        Row {
            vars: 6,
            clauses: &[],
            steps: &[
                Step {
                    call: Call::Propagate(None),
                    ready: true,
                    live: &[1, 2, 3, 4, 5, 6, 7, 8],
                    set: &[],
                },
                Step {
                    call: Call::Decide(1),
                    ready: false,
                    live: &[1, 2, 3, 4, 5, 6, 7, 8],
                    set: &[Set::Decided(1, 1)],
                },
                Step {
                    call: Call::Propagate(None),
                    ready: true,
                    live: &[1, 2, 3, 4, 5, 6, 7, 8],
                    set: &[Set::Decided(1, 1)],
                },
                Step {
                    call: Call::Decide(4),
                    ready: false,
                    live: &[1, 2, 3, 4, 5, 6, 7, 8],
                    set: &[Set::Decided(1, 1), Set::Decided(4, 2)],
                },
                Step {
                    call: Call::Propagate(None),
                    ready: true,
                    live: &[1, 2, 3, 4, 5, 6, 7, 8],
                    set: &[Set::Decided(1, 1), Set::Decided(4, 2), Set::Forced(2, 2, 1)],
                },
                Step {
                    call: Call::Decide(6),
                    ready: false,
                    live: &[1, 2, 3, 4, 5, 6, 7, 8],
                    set: &[
                        Set::Decided(1, 1),
                        Set::Decided(4, 2),
                        Set::Forced(2, 2, 1),
                        Set::Decided(6, 3),
                    ],
                },
                Step {
                    call: Call::Propagate(None),
                    ready: true,
                    live: &[1, 2, 3, 4, 5, 6, 7, 8],
                    set: &[
                        Set::Decided(1, 1),
                        Set::Decided(4, 2),
                        Set::Forced(2, 2, 1),
                        Set::Decided(6, 3),
                        Set::Forced(3, 3, 5),
                        Set::Forced(5, 3, 7),
                    ],
                },
                Step {
                    call: Call::BackTo(1),
                    ready: false,
                    live: &[1, 2, 3, 4, 5, 6, 7, 8],
                    set: &[Set::Decided(1, 1)],
                },
                Step {
                    call: Call::Propagate(None),
                    ready: true,
                    live: &[1, 2, 3, 4, 5, 6, 7, 8],
                    set: &[Set::Decided(1, 1)],
                },
                Step {
                    call: Call::Decide(-2),
                    ready: false,
                    live: &[1, 2, 3, 4, 5, 6, 7, 8],
                    set: &[Set::Decided(1, 1), Set::Decided(-2, 2)],
                },
                Step {
                    call: Call::Propagate(None),
                    ready: true,
                    live: &[1, 2, 3, 4, 5, 6, 7, 8],
                    set: &[
                        Set::Decided(1, 1),
                        Set::Decided(-2, 2),
                        Set::Forced(-4, 2, 1),
                    ],
                },
                Step {
                    call: Call::BackTo(0),
                    ready: false,
                    live: &[1, 2, 3, 4, 5, 6, 7, 8],
                    set: &[],
                },
                Step {
                    call: Call::Add(&[-1], 9),
                    ready: false,
                    live: &[1, 2, 3, 4, 5, 6, 7, 8, 9],
                    set: &[],
                },
                Step {
                    call: Call::Propagate(None),
                    ready: true,
                    live: &[1, 2, 3, 4, 5, 6, 7, 8, 9],
                    set: &[Set::Forced(-1, 0, 9)],
                },
            ],
        },
    ),
];

/// Whether the literal's variable exists and has no value.
fn is_unset(trail: &OrderTrail, lit: Lit) -> bool
    ensures exists { OnTrue result (IsNumberUpTo trail.now.vars lit.var) }
    ensures no_value { OnTrue result (values_of trail.now.entries lit.var ≡ None) }
{
    0 < lit.var && lit.var <= trail.vars() && trail.value(lit.var).is_none()
}

/// Decides on the literal; whether the trail allows it.
fn decides(trail: &mut OrderTrail, lit: Lit) -> bool {
    if !trail.ready() || !is_unset(trail, lit) {
        return false;
    }
    trail.decide(lit);
    true
}

/// Backtracks to the level; whether the trail allows it.
fn goes_back(trail: &mut OrderTrail, level: u32) -> bool {
    if level > trail.level() {
        return false;
    }
    trail.back_to(level);
    true
}

/// The number under which the clause is added at level 0; nothing if the trail does not allow it or
/// memory runs out.
fn add(alloc: Global, trail: &mut OrderTrail, numbers: &[i32]) -> Option<u32> {
    let added = clause(alloc, numbers).ok()?;
    if !added.is_over(trail.vars()) || trail.last_number() >= 10 || trail.level() > 0 {
        return None;
    }
    trail.add(added).ok()
}

/// Whether the clause of the number has these literals.
fn has_lits(trail: &OrderTrail, number: u32, numbers: &[i32]) -> bool {
    if !trail.has_clause(number) {
        return false;
    }
    let lent = trail.clause(number);
    let lits = lent.lits();
    lits.len() == numbers.len() && lits.iter().zip(numbers).all(|(l, n)| *l == lit(*n))
}

/// Makes the call; whether the trail allows it, and gives the number that it should.
fn makes(alloc: Global, trail: &mut OrderTrail, call: Call) -> bool {
    match call {
        Call::Propagate(given) => trail.propagate() == Ok(given),
        Call::Decide(number) => decides(trail, lit(number)),
        Call::BackTo(level) => goes_back(trail, level),
        Call::Add(numbers, given) => {
            add(alloc, trail, numbers) == Some(given) && has_lits(trail, given, numbers)
        }
        Call::Remove(_number) => false,
    }
}

/// Whether exactly the clauses of these numbers are live.
fn has_clauses(trail: &OrderTrail, live: &[u32]) -> bool {
    (0..10).all(|number| trail.has_clause(number) == live.contains(&number))
}

/// Whether the literal at the position is the wanted one, with its level and its reason.
fn is_entry(trail: &OrderTrail, position: u32, wanted: Set) -> bool
    requires { position < length trail.now.entries }
{
    let set = trail.at(position);
    let (number, level, reason) = match wanted {
        Set::Decided(number, level) => (number, level, None),
        Set::Forced(number, level, clause) => (number, level, Some(clause)),
    };
    set == lit(number) && trail.level_of(set.var) == Some(level) && trail.reason(set.var) == reason
}

/// Whether exactly these literals are set, in this order.
fn has_entries(trail: &OrderTrail, wanted: &[Set]) -> bool {
    if trail.len() as usize != wanted.len() {
        return false;
    }
    for (position, set) in wanted.iter().enumerate() {
        if !is_entry(trail, position as u32, *set) {
            return false;
        }
    }
    true
}

/// Whether the trail is after the call as it should be.
fn is_as_wanted(trail: &OrderTrail, step: &Step) -> bool {
    trail.ready() == step.ready && has_clauses(trail, step.live) && has_entries(trail, step.set)
}

/// Whether each of the calls gives what it should, and leaves the trail as it should be.
fn are_made(alloc: Global, trail: &mut OrderTrail, steps: &[Step]) -> bool {
    for step in steps {
        if !makes(alloc, trail, step.call) || !is_as_wanted(trail, step) {
            return false;
        }
    }
    true
}

/// Whether the order has few clauses, all over variables up to `vars`.
fn is_over(alloc: Global, order: Order, vars: u32) -> Result<bool, NoMemory>
    ensures exist { IfOk result (λ over. IsTrue over →
        All (VariablesExist vars) (order_list order)) }
    ensures few { IfOk result (λ over. IsTrue over → length (order_list order) < 100) }
{
    let numbers = OrderNumbers::new(alloc, order)?;
    let mut clauses = Seq::new(alloc);
    numbers.push_all(&mut clauses, alloc)?;
    Ok(numbers.count() < 100 && Formula::of(vars, clauses).is_some())
}

/// Whether each of the calls leaves the trail over the order and the formula as it should be.
fn are_made_on(alloc: Global, order: Order, f: &Formula, steps: &[Step]) -> Result<bool, NoMemory> {
    if f.clauses.len() >= 10 || !is_over(alloc, order, f.vars)? {
        return Ok(false);
    }
    let mut trail = OrderTrail::new(alloc, f, order)?;
    Ok(are_made(alloc, &mut trail, steps))
}

/// Whether the row has a formula, and each of its calls leaves the trail as it should be.
fn is_passed(alloc: Global, kinds: u32, row: &Row) -> Result<bool, NoMemory> {
    let order = Order {
        base: 0,
        kinds: kinds.min(8),
    };
    match formula(alloc, row.vars, row.clauses)? {
        Some(f) => are_made_on(alloc, order, &f, row.steps),
        None => Ok(false),
    }
}

#[test]
fn each_call_leaves_its_order_trail(rt: HostRuntime) -> Result<(), Fail> {
    for (kinds, row) in ROWS {
        assert!(rt; is_passed(rt.alloc(), *kinds, row)?);
    }
    Ok(())
}
