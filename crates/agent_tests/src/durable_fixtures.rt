ghost use Rattle.std.specs.Prelude.{◌≡◌, ◌≢◌, ◌+◌, ◌<◌, ◌≤◌, IfErr, IfOk};
ghost use Rattle.agent_tests.specs.declared.durable_fixtures.Answer.TheVariants.{Fault};

use super::fixtures::count_chosen;
use bspl_types::{Admitted, Instance, Key, Stamped, Text32, Value, Values};
use durable_store::{DurableStore, EmitRefusal, ReceiveRefusal};
use local_store::Receipt;
use role_journal::StopDisk;
use role_knowledge::Block;
use std::alloc::Global;

/// What B's durable store answers.
#[derive(Clone, Copy, Debug, PartialEq, Eq)]
pub(crate) enum Answer {
    Fresh,
    Repeat,
    Differs { param: u32 },
    Sent { stamp: u64, number: u32 },
    Missing { param: u32 },
    Bound { param: u32 },
    Full,
    Spent,
    Fault,
    NoMemory,
    /// Not asked, since the question is not one for the store.
    Unasked,
}

/// A's message `ask` under the key 1 with this text, as its first event.
pub(crate) fn ask(x: &[u8]) -> Option<Stamped> {
    if x.len() > 32 {
        return None;
    }
    Some(Stamped {
        instance: Instance {
            message: 0,
            key: Key::of(&[Value::Number(1)]),
            values: Values::of(&[Value::Number(1), Value::Text(Text32::of(x))]),
        },
        stamp: 1,
        number: 0,
    })
}

/// What B's store answers to the message.
pub(crate) fn receive(d: &mut DurableStore<StopDisk>, m: &Stamped) -> Answer
    ensures few { d.new.disk.faults ≤ d.old.disk.faults + 1 }
    ensures same { result ≢ Fault → d.new.disk.faults ≡ d.old.disk.faults }
{
    let store = d.store();
    let x = store.admitted().expanded();
    if !m.instance.fits(x) || !store.holds(&m.instance.key) {
        return Answer::Unasked;
    }
    if store.clock() == u64::MAX || m.stamp == u64::MAX {
        return Answer::Unasked;
    }
    if x.messages.at(m.instance.message as usize).receiver != store.role() {
        return Answer::Unasked;
    }
    match d.receive(m) {
        Ok(Receipt::Fresh) => Answer::Fresh,
        Ok(Receipt::Repeat) => Answer::Repeat,
        Ok(Receipt::Differs { param, .. }) => Answer::Differs { param },
        Err(ReceiveRefusal::Full) => Answer::Full,
        Err(ReceiveRefusal::Spent) => Answer::Spent,
        Err(ReceiveRefusal::DiskFault) => Answer::Fault,
        Err(ReceiveRefusal::NoMemory) => Answer::NoMemory,
    }
}

/// What it answers to an emission of `tell` under the key 1 with the number 9.
pub(crate) fn tell(d: &mut DurableStore<StopDisk>) -> Answer
    ensures few { d.new.disk.faults ≤ d.old.disk.faults + 1 }
    ensures same { result ≢ Fault → d.new.disk.faults ≡ d.old.disk.faults }
{
    let key = Key::of(&[Value::Number(1)]);
    let store = d.store();
    let x = store.admitted().expanded();
    if x.messages.len() < 2 || !store.holds(&key) || store.clock() == u64::MAX {
        return Answer::Unasked;
    }
    let schema = x.messages.at(1);
    let count = count_chosen(x.keys.as_slice(), schema.carried.as_slice());
    if schema.sender != store.role() || count != 1 {
        return Answer::Unasked;
    }
    match d.emit(1, &key, &[Value::Number(9)]) {
        Ok(m) => Answer::Sent {
            stamp: m.stamp,
            number: m.number,
        },
        Err(EmitRefusal::Blocked(Block::Missing { param })) => Answer::Missing { param },
        Err(EmitRefusal::Blocked(Block::Bound { param, .. })) => Answer::Bound { param },
        Err(EmitRefusal::Full) => Answer::Full,
        Err(EmitRefusal::Spent) => Answer::Spent,
        Err(EmitRefusal::DiskFault) => Answer::Fault,
        Err(EmitRefusal::NoMemory) => Answer::NoMemory,
    }
}

/// B's store, started from the disk under the key 1.
pub(crate) fn start(
    alloc: Global,
    a: &Admitted,
    disk: StopDisk,
) -> Result<DurableStore<StopDisk>, StopDisk>
    requires few { disk.faults < 9 }
    ensures ok { IfOk result (λ d. d.disk.faults ≡ disk.faults) }
    ensures err { IfErr result (λ e. e.faults ≤ disk.faults + 1) }
{
    let x = a.expanded();
    if x.roles.len() < 2 || x.keys.len() != 1 {
        return Err(disk);
    }
    match DurableStore::start(alloc, a, 1, disk, &[Key::of(&[Value::Number(1)])]) {
        Ok(d) => Ok(d),
        Err((_, disk)) => Err(disk),
    }
}
