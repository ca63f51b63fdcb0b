ghost use Rattle.std.specs.Prelude.{IfOk};
ghost use Rattle.clause_core.specs.Numbering.{Numbering};
ghost use Rattle.refutation_log.specs.Resolution.{Derives};
ghost use Rattle.lrat_text.specs.Lrat.{HasHints};

use super::lit_set::LitSet;
use clause_core::Lit;
use list_base::{NoMemory, NumberList, Seq};
use refutation_log::Chain;
use std::alloc::Global;

/// The hints by which unit propagation refutes the negation of the chain's clause: the clauses of
/// its links from the last one back, and then its first clause. A link's clause makes the negation
/// of its pivot true. It is left out if that is true already, and it is the last hint if the pivot
/// is true, since all of it is false then.
pub(crate) fn hints_of(alloc: Global, clause: &[Lit], chain: &Chain) -> Result<NumberList, NoMemory>
    ensures { (numbering : Numbering) → Derives numbering chain.now clause.now →
        IfOk result (HasHints numbering clause.now) }
{
    let mut true_lits = LitSet::negating(alloc, clause)?;
    let mut hints = Seq::new(alloc);
    let mut left = chain.links.as_slice();
    while let Some((link, before)) = left.split_last() {
        let open = link.pivot.negation();
        if true_lits.has(link.pivot) {
            hints.push(link.clause)?;
            return Ok(hints);
        }
        if !true_lits.has(open) {
            hints.push(link.clause)?;
            true_lits.insert(open)?;
        }
        left = before;
    }
    hints.push(chain.first)?;
    Ok(hints)
}
