ghost use Rattle.std.specs.Prelude.{◌≡◌, IfOk};

use agent_scripts::Job;
use bspl_types::Key;
use list_base::{NoMemory, Seq};
use std::alloc::Global;

/// The workload keys, in order.
pub fn workload_keys(alloc: Global, job: &Job) -> Result<Seq<Key>, NoMemory>
    ensures { IfOk result (λ keys. keys ≡ job.now.script.keys) }
{
    let script = job.script();
    let mut keys = Seq::new(alloc);
    for index in 0..script.count() {
        keys.push(script.key(index + 1))?;
    }
    Ok(keys)
}
