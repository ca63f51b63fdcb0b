ghost use Rattle.std.specs.Prelude.{◌≡◌, ◌↔◌, ◌<◌, length, slice_get, Some, IfErr, IfOk, IsOk};
ghost use Rattle.std.specs.Prelude.{OnErr};
ghost use Rattle.std.specs.List.{Contains};
ghost use Rattle.bspl_types.specs.declared.event.Event.TheVariants.{Emit};
ghost use Rattle.bspl_types.specs.Expansion.{message_of};
ghost use Rattle.bspl_types.specs.Knowledge.{CanEmit};
ghost use Rattle.role_knowledge.specs.Blocked.{IsFirstBlock};
ghost use Rattle.local_store.specs.Emission.{IsAttempt, IsEmission, IsPlannedAt, IsProposal};
ghost use Rattle.local_store.specs.State.{acts_of, with_entry};

use super::act::Kind;
use super::store::Store;
use bspl_types::{Key, Stamped, Value};
use role_knowledge::Block;

impl Store {
    /// Emits the message under the key with the known values of its `in` parameters, and these
    /// values of its `out` parameters that are no keys. An error changes nothing.
    pub fn emit(&mut self, message: u32, key: &Key, outs: &[Value]) -> Result<Stamped, Block>
        requires { IsAttempt self.old message key.now outs.now }
        ensures ok { IfOk result (IsEmission self.old message key.now outs.now) }
        ensures entry { IfOk result
            (λ m. self.new ≡ with_entry self.old (Emit m.instance) m.stamp m.number) }
        ensures exact { IsOk result ↔
            CanEmit self.old.protocol (acts_of self.old) message key.now }
        ensures blocked { IfErr result (IsFirstBlock self.old.protocol (acts_of self.old) key.now
            (message_of self.old.protocol message).carried) }
        ensures err { OnErr result (self.new ≡ self.old) }
    {
        let row = self.held_row(key);
        if let Some(block) = self.block_at(row, message) {
            return Err(block);
        }
        let m = self.emission(row, message, key, outs);
        self.append(Kind::Emitted, row, &m.instance, m.stamp, m.number);
        Ok(m)
    }

    /// What `emit` answers of a message that can be emitted under the row's key. Nothing changes.
    pub fn planned(&self, row: usize, message: u32, key: &Key, outs: &[Value]) -> Stamped
        requires row { slice_get self.now.keys row ≡ Some key.now }
        requires proposal { IsProposal self.now message key.now outs.now }
        requires can { CanEmit self.now.protocol (acts_of self.now) message key.now }
        ensures { IsEmission self.now message key.now outs.now result }
    {
        self.emission(row, message, key, outs)
    }

    /// Emits what was planned under the row's key. It asks nothing again, and takes no memory.
    pub fn append_planned(&mut self, row: usize, m: &Stamped)
        requires { IsPlannedAt self.old row m.now }
        ensures { self.new ≡
            with_entry self.old (Emit m.now.instance) m.now.stamp m.now.number }
    {
        // law: each store is consistent
        self.is_consistent();
        self.append(Kind::Emitted, row, &m.instance, m.stamp, m.number);
    }

    /// Whether the message can be emitted under the key, as `emit` answers it.
    pub fn blocked(&self, message: u32, key: &Key) -> Result<(), Block>
        requires known { message < length self.now.protocol.messages }
        requires held { Contains self.now.keys key.now }
        ensures exact { IsOk result ↔
            CanEmit self.now.protocol (acts_of self.now) message key.now }
        ensures blocked { IfErr result (IsFirstBlock self.now.protocol (acts_of self.now) key.now
            (message_of self.now.protocol message).carried) }
    {
        match self.block_at(self.held_row(key), message) {
            None => Ok(()),
            Some(block) => Err(block),
        }
    }
}
