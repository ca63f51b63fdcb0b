ghost use Rattle.std.specs.Prelude.{◌≡◌, ◌++◌, ◌∷◌, ◌<◌, [], length, IfOk};
ghost use Rattle.local_store.specs.Consistent.{IsConsistent};
ghost use Rattle.role_server.specs.Live.{RepliesLive, first_live_store, with_live_room};

use super::live_reply::reply_live;
use super::reply::{push_text, push_told};
use bspl_types::Admitted;
use kept_lines::Responder;
use list_base::{Bytes, NoMemory};
use local_store::Store;
use std::alloc::Global;
use std::marker::Model;
use wire_form::{LineReader, Refusal, Reply};

/// A role that goes on as long as there is memory, and whose lines are kept. Only a line that makes
/// an event changes it, so the lines that are kept are enough to restore it.
#[derive(Drop)]
pub struct LiveRole {
    reader: LineReader,
    store: Store,
}

impl Model for LiveRole {
    ghost use Rattle.local_store.specs.State.{StoreState};
    ghost use Rattle.role_server.specs.Live.{with_live_room};

    ghost Value = { StoreState };

    // An event is spare as long as its number has 32 bits, whether or not its memory is there.
    ghost view = { λ r. with_live_room r.store };
}

impl LiveRole {
    /// The role before its first line.
    pub fn new(alloc: Global, a: &Admitted, role: u32) -> Result<LiveRole, NoMemory>
        requires { role < length a.now.roles }
        ensures { IfOk result (λ r. r ≡ first_live_store a.now role) }
    {
        Ok(LiveRole {
            reader: LineReader::new(alloc),
            store: Store::new(alloc, a, role)?,
        })
    }

    /// Answers the line with this body, and an LF after it.
    pub fn reply(&mut self, body: &[u8]) -> Result<Reply, NoMemory>
        ensures { IfOk result (λ reply.
            RepliesLive self.old (body.now ++ 10 ∷ []) reply self.new) }
    {
        reply_live(&mut self.reader, &mut self.store, body)
    }

    /// Lends the role's store. Contracts see it with all the room that a live role may use.
    pub fn store(&self) -> &Store
        ensures { with_live_room result.now ≡ self.now }
    {
        &self.store
    }

    /// A law: what is known of a role is a consistent store.
    #[tactic(auto, using(crate::proofs::LiveLemmas::live_consistent))]
    pub fn is_consistent(&self)
        ensures { IsConsistent self.now }
    {
        // law: each store is consistent
        self.store.is_consistent();
    }
}

impl Responder for LiveRole {
    ghost use Rattle.role_server.specs.Live.{LiveReplies};
    ghost use Rattle.role_server.specs.inner.LiveUnread.{live_unread};
    ghost use Rattle.wire_form.specs.declared.reply.Refusal.TheVariants.{F1};
    ghost use Rattle.wire_form.specs.declared.reply.Reply.TheVariants.{Refused};
    ghost use Rattle.wire_form.specs.Reply.{reply_text};

    ghost answers = { LiveReplies };

    ghost unread = { λ s. reply_text s.protocol (Refused F1) };

    fn answer(
        &mut self,
        alloc: Global,
        body: &[u8],
        replies: &mut Bytes,
    ) -> Result<bool, NoMemory> {
        match reply_live(&mut self.reader, &mut self.store, body) {
            Ok(reply) => push_told(alloc, replies, &self.store, &reply),
            Err(error) => Err(error),
        }
    }

    fn push_unread(&self, alloc: Global, replies: &mut Bytes) -> Result<(), NoMemory> {
        let reply = Reply::Refused(Refusal::F1);
        push_text(alloc, replies, &self.store, &reply)
    }

    ghost leaves_unread = { live_unread };
}
