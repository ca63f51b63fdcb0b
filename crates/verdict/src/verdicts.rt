ghost use Rattle.std.specs.Prelude.{◌≤◌, IfOk};
ghost use Rattle.bspl_types.specs.declared.property.Property.TheVariants as properties;
ghost use Rattle.enactment_model.specs.Producers.{HasOneProducer};
ghost use Rattle.verdict.specs.Decision.{IsRefuted};
ghost use Rattle.verdict.specs.Numbers.{HasNumbersInRange};
ghost use Rattle.verdict.specs.Right.{IsRight, IsSafeByEmptyLog};
ghost use Rattle.verdict.specs.RightLiveness.{IsRightLiveness};
ghost use Rattle.verdict.specs.Verdicts.{AreInRange, AreRightAnswers, HasLivenessInRange};
ghost use Rattle.verdict.specs.inner.Answer.{IsNotLiveBy, IsUnsafeBy};

use super::decision::decide;
use super::outcome::{Decision, Liveness, Safety, Verdicts};
use bspl_types::{Admitted, Property, Run};
use enactment_model::{producers, unbound};
use list_base::NoMemory;
use std::alloc::Global;
use witness_replay::key_of_ones;

/// Decides whether the protocol is safe, and whether it is live, each with no more than `budget`
/// conflicts in the search.
pub fn verify(alloc: Global, a: &Admitted, budget: u32) -> Result<Verdicts, NoMemory>
    requires some { 1 ≤ budget }
    requires few { budget ≤ 2147483647 }
    ensures right { IfOk result (AreRightAnswers a.now budget) }
    ensures single { HasOneProducer a.now → IfOk result (λ v. IsSafeByEmptyLog v.safety) }
    ensures numbers { budget ≤ 1000000 → IfOk result AreInRange }
{
    let safety = decide_safety(alloc, a, budget)?;
    let liveness = decide_liveness(alloc, a, budget)?;
    Ok(Verdicts { safety, liveness })
}

/// Decides whether the protocol is safe.
fn decide_safety(alloc: Global, a: &Admitted, budget: u32) -> Result<Safety, NoMemory>
    requires some { 1 ≤ budget }
    requires few { budget ≤ 2147483647 }
    ensures right { IfOk result (IsRight a.now budget) }
    ensures single { HasOneProducer a.now → IfOk result IsSafeByEmptyLog }
    ensures numbers { budget ≤ 1000000 → IfOk result HasNumbersInRange }
{
    match decide(alloc, Property::Safety, a, budget)? {
        Decision::Proved(log) => Ok(Safety::Safe(log)),
        Decision::Refuted(run) => Ok(with_conflict(a, run)),
        Decision::Undecided(log) => Ok(Safety::Undecided(log)),
    }
}

/// The run that refutes safety, with its conflict.
fn with_conflict(a: &Admitted, run: Run) -> Safety
    requires { IsRefuted properties.Safety a.now run }
    ensures { IsUnsafeBy a.now run result }
{
    let conflict = producers(a.expanded(), run.as_slice()).unwrap();
    Safety::Unsafe {
        run,
        param: conflict.param,
        first: conflict.first,
        second: conflict.second,
    }
}

/// Decides whether the protocol is live.
fn decide_liveness(alloc: Global, a: &Admitted, budget: u32) -> Result<Liveness, NoMemory>
    requires some { 1 ≤ budget }
    requires few { budget ≤ 2147483647 }
    ensures right { IfOk result (IsRightLiveness a.now budget) }
    ensures numbers { budget ≤ 1000000 → IfOk result HasLivenessInRange }
{
    match decide(alloc, Property::Liveness, a, budget)? {
        Decision::Proved(log) => Ok(Liveness::Live(log)),
        Decision::Refuted(run) => Ok(with_unbound(a, run)),
        Decision::Undecided(log) => Ok(Liveness::Undecided(log)),
    }
}

/// The run that refutes liveness, with the first public parameter that it leaves unbound.
fn with_unbound(a: &Admitted, run: Run) -> Liveness
    requires { IsRefuted properties.Liveness a.now run }
    ensures { IsNotLiveBy a.now run result }
{
    // law: what was admitted is admitted
    a.is_admitted();
    let x = a.expanded();
    let key = key_of_ones(x);
    let param = unbound(x, run.as_slice(), &key).unwrap();
    Liveness::NotLive { run, param }
}
