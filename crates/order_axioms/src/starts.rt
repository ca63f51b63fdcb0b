ghost use Rattle.std.specs.Prelude.{◌≤◌, IfOk};
ghost use Rattle.order_axioms.specs.inner.Starts.{AreCycleStarts, ArePairStarts};

use list_base::NoMemory;
use std::alloc::Global;

/// For each number of kinds, how many clauses a kind before all of them has with two later ones of
/// which the first is among so many.
pub fn pair_starts(alloc: Global, kinds: u32) -> Result<Vec<u32>, NoMemory>
    requires { kinds ≤ 128 }
    ensures { IfOk result (λ starts. ArePairStarts kinds starts.items) }
{
    let mut starts = Vec::new(alloc);
    let mut start = 0;
    starts.push(start)?;
    for kind in 1..kinds + 1 {
        start += 2 * (kinds - kind);
        starts.push(start)?;
    }
    Ok(starts)
}

/// For each number of kinds, how many clauses have their first kind among so many.
pub fn cycle_starts(alloc: Global, kinds: u32, pairs: &[u32]) -> Result<Vec<u32>, NoMemory>
    requires few { kinds ≤ 128 }
    requires pairs { ArePairStarts kinds pairs.now }
    ensures { IfOk result (λ starts. AreCycleStarts kinds starts.items) }
{
    let mut starts = Vec::new(alloc);
    let mut start = 0;
    starts.push(start)?;
    for kind in 1..kinds + 1 {
        start += pairs[kinds as usize] - pairs[kind as usize];
        starts.push(start)?;
    }
    Ok(starts)
}
