ghost use Rattle.std.specs.Prelude.{◌≡◌, ◌<◌, length, IfOk, IsErrOf};
ghost use Rattle.bspl_types.specs.Expansion.{message_of};
ghost use Rattle.bspl_types.specs.Knowledge.{CanEmit};
ghost use Rattle.role_journal.specs.Counts.{Costs};
ghost use Rattle.local_store.specs.Emission.{IsEmission, IsProposal};
ghost use Rattle.local_store.specs.State.{acts_of};
ghost use Rattle.durable_store.specs.Calls.{EndsWith};
ghost use Rattle.durable_store.specs.Emission.{IsEmitAnswer, emission_entry};

use super::durable::DurableStore;
use super::refusals::EmitRefusal;
use bspl_io::Trouble;
use bspl_types::{Event, Key, Stamped, Value};
use local_store::{Store, next_stays_local};
use role_journal::Disk;
use role_knowledge::Block;
use stamped_history::Entry;

impl<D: Disk> DurableStore<D> {
    /// Emits as `Store::emit` does, and acknowledges the emission once the journal has it. A fault
    /// of the disk, or out of memory, leaves the store without the emission, and spent; the disk
    /// may have it, and `start` then gives it back.
    pub fn emit(&mut self, message: u32, key: &Key, outs: &[Value]) -> Result<Stamped, EmitRefusal>
        requires proposal { IsProposal self.old.store message key.now outs.now }
        requires known { message < length self.old.store.protocol.messages }
        requires own { (message_of self.old.store.protocol message).sender ≡
            self.old.store.role }
        ensures ok { IfOk result (IsEmission self.old.store message key.now outs.now) }
        ensures ends { EndsWith D.seen D.may_leave D.clock D.left_since
            (IsEmitAnswer (D.may_lack self.new.disk) self.old message key.now outs.now result)
            self.old self.new }
        ensures costs { Costs D.clock D.counts 4 (IsErrOf result EmitRefusal.DiskFault)
            self.old.disk self.new.disk }
    {
        // laws: a store is consistent, and stays so with what it can emit
        self.store.is_consistent();
        next_stays_local();
        if self.spent {
            return Err(EmitRefusal::Spent);
        }
        if self.store.spare() == 0 {
            return Err(EmitRefusal::Full);
        }
        self.store.blocked(message, key)?;
        let m = plan(&self.store, message, key, outs);
        let entry = entry_of(&m);
        self.append_next(&entry)?;
        Ok(m)
    }
}

/// What the store would emit.
fn plan(store: &Store, message: u32, key: &Key, outs: &[Value]) -> Stamped
    requires proposal { IsProposal store.now message key.now outs.now }
    requires can { CanEmit store.now.protocol (acts_of store.now) message key.now }
    ensures { IsEmission store.now message key.now outs.now result }
{
    store.planned(store.row_near(key, 0), message, key, outs)
}

/// The entry of the emission.
fn entry_of(m: &Stamped) -> Entry
    ensures { result ≡ emission_entry m.now }
{
    Entry {
        event: Event::Emit(m.instance),
        stamp: m.stamp,
        number: m.number,
    }
}

impl From<Block> for EmitRefusal {
    ghost use Rattle.std.specs.Prelude.{◌≡◌};
    ghost use Rattle.durable_store.specs.declared.refusals.EmitRefusal.TheVariants.{Blocked};

    ghost from_gives = { λ block refusal. refusal ≡ Blocked block };

    fn from(block: Block) -> EmitRefusal {
        EmitRefusal::Blocked(block)
    }
}

impl From<Trouble> for EmitRefusal {
    ghost use Rattle.std.specs.Prelude.{◌≡◌};
    ghost use Rattle.durable_store.specs.Troubles.{emit_refusal};

    ghost from_gives = { λ trouble refusal. refusal ≡ emit_refusal trouble };

    fn from(trouble: Trouble) -> EmitRefusal {
        match trouble {
            Trouble::Failed => EmitRefusal::DiskFault,
            Trouble::NoMemory => EmitRefusal::NoMemory,
        }
    }
}
