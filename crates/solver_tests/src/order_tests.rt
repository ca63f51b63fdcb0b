ghost use Rattle.std.specs.Prelude.{◌≡◌, ◌<◌, [], ◌∷◌, IfOk};

use super::formulas::lit;
use bspl_parser::{parse, reads_back};
use bspl_types::{Admitted, Expanded, Property, Refusal};
use clause_core::Clause;
use clause_encoding::{formula_of, ordered_formula_of};
use list_base::{NoMemory, Seq};
use order_axioms::{FormulaClauses, Order, OrderNumbers};
use protocol_expand::{admit, expand};
use std::alloc::Global;
use std::test::Fail;

/// A number of kinds, and how many clauses their order has: two for each three kinds.
struct Count {
    kinds: u32,
    clauses: u32,
}

const COUNTS: &[Count] = &[
    Count {
        kinds: 0,
        clauses: 0,
    },
    Count {
        kinds: 2,
        clauses: 0,
    },
    Count {
        kinds: 3,
        clauses: 2,
    },
    Count {
        kinds: 4,
        clauses: 8,
    },
    Count {
        kinds: 5,
        clauses: 20,
    },
    Count {
        kinds: 8,
        clauses: 112,
    },
];

/// A cycle of three of four kinds, whose variables follow 10: the number of the clause that forbids
/// it, and its literals.
struct Cycle {
    kinds: (u32, u32, u32),
    number: u32,
    lits: [i32; 3],
}

const CYCLES: &[Cycle] = &[
    Cycle {
        kinds: (1, 2, 3),
        number: 1,
        lits: [-11, 12, -14],
    },
    Cycle {
        kinds: (3, 2, 1),
        number: 2,
        lits: [11, -12, 14],
    },
    Cycle {
        kinds: (2, 4, 1),
        number: 3,
        lits: [-11, 13, -15],
    },
    Cycle {
        kinds: (4, 2, 1),
        number: 4,
        lits: [11, -13, 15],
    },
    Cycle {
        kinds: (4, 1, 3),
        number: 5,
        lits: [-12, 13, -16],
    },
    Cycle {
        kinds: (3, 1, 4),
        number: 6,
        lits: [12, -13, 16],
    },
    Cycle {
        kinds: (3, 4, 2),
        number: 7,
        lits: [-14, 15, -16],
    },
    Cycle {
        kinds: (2, 4, 3),
        number: 8,
        lits: [14, -15, 16],
    },
];

/// The numbers of the clauses of an order of up to eight kinds.
fn numbers(alloc: Global, kinds: u32) -> Result<OrderNumbers, NoMemory>
    ensures { IfOk result (λ numbers. kinds < 9 → numbers.order.kinds ≡ kinds) }
{
    let order = Order {
        base: 10,
        kinds: kinds.min(8),
    };
    OrderNumbers::new(alloc, order)
}

/// Whether the order has as many clauses.
fn is_counted(alloc: Global, row: &Count) -> bool {
    match numbers(alloc, row.kinds) {
        Ok(numbers) => numbers.count() == row.clauses,
        Err(NoMemory) => false,
    }
}

/// Whether the clause of the number has these literals, in this order.
fn has_clause(numbers: &OrderNumbers, number: u32, lits: [i32; 3]) -> bool {
    if number == 0 || number > numbers.count() {
        return false;
    }
    numbers.clause(number) == [lit(lits[0]), lit(lits[1]), lit(lits[2])]
}

/// Whether the clause of the row's cycle has the row's number and literals.
fn is_numbered(numbers: &OrderNumbers, row: &Cycle) -> bool
    requires { numbers.now.order.kinds ≡ 4 }
{
    let (x, y, z) = row.kinds;
    if x == 0 || y == 0 || z == 0 || x > 4 || y > 4 || z > 4 {
        return false;
    }
    if x == y || y == z || z == x {
        return false;
    }
    numbers.number(x, y, z) == row.number && has_clause(numbers, row.number, row.lits)
}

/// A protocol of two messages, whose formulas have order clauses.
const TWIN: &[u8] =
    b"Twin { roles A, B parameters out ID key A -> B: m[out ID] B -> A: n[out ID] }";

/// The expansion of Twin.
fn expansion(alloc: Global) -> Result<Expanded, Refusal> {
    // law: the document of a text is well formed
    reads_back();
    let document = parse(alloc, TWIN)?;
    expand(alloc, &document, b"Twin")
}

/// The protocol Twin, which is admitted.
fn twin(alloc: Global) -> Result<Admitted, Fail> {
    let x = expansion(alloc).ok().ok_or("the text has no expansion")?;
    Ok(admit(x).ok().ok_or("the protocol is not admitted")?)
}

/// A list of the protocol alone: it is one value to drop, where the protocol has many.
fn alone(alloc: Global, protocol: Admitted) -> Result<Seq<Admitted>, NoMemory>
    ensures { IfOk result (λ list. list ≡ protocol ∷ []) }
{
    let mut list = Seq::new(alloc);
    list.push(protocol)?;
    Ok(list)
}

/// Whether each clause is lent at its index.
fn are_lent(lent: &FormulaClauses<'_>, clauses: &[Clause]) -> bool {
    for (index, clause) in clauses.iter().enumerate() {
        match lent.get(index) {
            Some(same) if same.lits() == clause.lits() => {}
            _ => return false,
        }
    }
    lent.len() == clauses.len()
}

/// Whether the formula with an order has the clauses of the formula that stores all.
fn is_whole(alloc: Global, property: Property, protocol: &Admitted) -> Result<bool, NoMemory> {
    let stored = formula_of(alloc, property, protocol)?;
    let ordered = ordered_formula_of(alloc, property, protocol)?;
    let lent = FormulaClauses::ordered(alloc, &ordered)?;
    Ok(ordered.order.kinds == 4 && are_lent(&lent, stored.clauses.as_slice()))
}

#[test]
fn order_clauses_are_counted(rt: HostRuntime) {
    for row in COUNTS {
        assert!(rt; is_counted(rt.alloc(), row));
    }
}

#[test]
fn order_clauses_have_numbers(rt: HostRuntime) -> Result<(), Fail> {
    let numbers = numbers(rt.alloc(), 4)?;
    for row in CYCLES {
        assert!(rt; is_numbered(&numbers, row));
    }
    Ok(())
}

#[test]
fn formulas_with_an_order_are_whole(rt: HostRuntime) -> Result<(), Fail> {
    let twins = alone(rt.alloc(), twin(rt.alloc())?)?;
    for property in [Property::Safety, Property::Liveness] {
        assert!(rt; is_whole(rt.alloc(), property, twins.at(0))?);
    }
    Ok(())
}
