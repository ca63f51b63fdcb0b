ghost use Rattle.std.specs.Prelude.{◌≡◌, ◌≢◌, ◌++◌, ◌∷◌, [], IfOk, OnOk};
ghost use Rattle.clause_core.specs.Clause.{IsAscending};
ghost use Rattle.clause_core.specs.Resolvent.{IsUnion};

use super::literal::{Lit, Lits};
use list_base::NoMemory;
use std::alloc::Global;

/// The first list without `left` and the second without `right`, in one ascending list.
pub fn merged(alloc: Global, c: &[Lit], left: Lit, d: &[Lit], right: Lit) -> Result<Lits, NoMemory>
    requires differ { left ≢ right }
    requires c_ascends { IsAscending c.now }
    requires d_ascends { IsAscending d.now }
    ensures { IfOk result (λ kept. IsUnion c.now left d.now right kept.items) }
{
    let (mut first, mut second) = (c, d);
    let mut kept = Lits::new(alloc);
    'merge: loop {
        match first {
            [] => match second {
                [] => return Ok(kept),
                [y, ys @ ..] => {
                    keep(&mut kept, *y, right)?;
                    second = ys;
                }
            },
            [x, xs @ ..] => match second {
                [] => {
                    keep(&mut kept, *x, left)?;
                    first = xs;
                }
                [y, ys @ ..] => {
                    if x.rank() < y.rank() {
                        keep(&mut kept, *x, left)?;
                        first = xs;
                    } else if y.rank() < x.rank() {
                        keep(&mut kept, *y, right)?;
                        second = ys;
                    } else {
                        kept.push(*x)?;
                        first = xs;
                        second = ys;
                    }
                }
            },
        }
    }
}

/// Appends the literal, unless it is the one to leave out.
fn keep(kept: &mut Lits, lit: Lit, out: Lit) -> Result<(), NoMemory>
    ensures left { OnOk result (lit ≡ out → kept.new.items ≡ kept.old.items) }
    ensures kept { OnOk result (lit ≢ out → kept.new.items ≡ kept.old.items ++ lit ∷ []) }
{
    if lit != out {
        kept.push(lit)?;
    }
    Ok(())
}
