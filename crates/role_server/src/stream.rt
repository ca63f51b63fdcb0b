ghost use Rattle.std.specs.Prelude.{◌≡◌, ◌<◌, [], length, IfErr, IfOk};
ghost use Rattle.local_store.specs.Consistent.{IsConsistent};
ghost use Rattle.role_server.specs.Served.{first_store};
ghost use Rattle.role_server.specs.Stream.{AreFaultsCounted, ServesAll, Stops, counts, passed};

use super::refusal::{ServeRefusal, serve_refusal};
use super::served_role::ServedRole;
use bspl_io::{Sink, Source};
use bspl_types::Admitted;
use kept_lines::{NoJournal, answer_stream};
use list_base::NoMemory;
use local_store::Store;
use std::alloc::Global;

/// The most bytes that may come.
const INPUT_LIMIT: u64 = 536_870_912;

/// The most events of a role.
const EVENT_LIMIT: u32 = 65_536;

/// Answers each line of the input, with a new store for the role.
pub fn serve<R: Source, W: Sink>(
    alloc: Global,
    a: &Admitted,
    role: u32,
    input: &mut R,
    output: &mut W,
) -> Result<Store, ServeRefusal>
    requires { role < length a.now.roles }
    ensures ok { IfOk result (ServesAll (first_store a.now role) []
        (passed R.remaining W.contents input.old input.new output.old output.new)) }
    ensures err { IfErr result (Stops (first_store a.now role) []
        (passed R.remaining W.contents input.old input.new output.old output.new)) }
    ensures faults { AreFaultsCounted
        (counts R.faults W.faults input.old input.new output.old output.new) result }
    ensures consistent { IfOk result IsConsistent }
{
    let store = store_with_room(alloc, a, role)?;
    let end = serve_from(alloc, store, &[], input, output)?;
    // law: each store is consistent
    end.is_consistent();
    Ok(end)
}

/// Answers each line of the bytes that were taken ahead of the input and then of the input, as soon
/// as it is whole: what was written holds the replies to all whole lines before more is read.
pub fn serve_from<R: Source, W: Sink>(
    alloc: Global,
    store: Store,
    ahead: &[u8],
    input: &mut R,
    output: &mut W,
) -> Result<Store, ServeRefusal>
    ensures ok { IfOk result (ServesAll store ahead.now
        (passed R.remaining W.contents input.old input.new output.old output.new)) }
    ensures err { IfErr result (Stops store ahead.now
        (passed R.remaining W.contents input.old input.new output.old output.new)) }
    ensures faults { AreFaultsCounted
        (counts R.faults W.faults input.old input.new output.old output.new) result }
{
    let role = ServedRole::new(alloc, store);
    let mut journal = NoJournal;
    let served = answer_stream(alloc, role, ahead, INPUT_LIMIT, &mut journal, input, output);
    match served {
        Ok(end) => Ok(end.into_store()),
        Err(refusal) => Err(serve_refusal(refusal)),
    }
}

/// A new store of the role, with room for all of its events.
pub fn store_with_room(alloc: Global, a: &Admitted, role: u32) -> Result<Store, NoMemory>
    requires { role < length a.now.roles }
    ensures { IfOk result (λ s. s ≡ first_store a.now role) }
{
    let mut store = Store::new(alloc, a, role)?;
    store.reserve(EVENT_LIMIT)?;
    Ok(store)
}
