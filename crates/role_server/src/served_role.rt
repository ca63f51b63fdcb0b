ghost use Rattle.std.specs.Prelude.{◌≡◌};

use super::answer::answer_line;
use super::reply::{push_text, push_told};
use kept_lines::Responder;
use list_base::{Bytes, NoMemory};
use local_store::Store;
use std::alloc::Global;
use std::marker::Model;
use wire_form::{LineReader, Refusal, Reply};

/// The most keys that are held.
const HELD_LIMIT: u32 = 10_000;

/// A role that answers lines from its store.
#[derive(Drop)]
pub(crate) struct ServedRole {
    reader: LineReader,
    store: Store,
}

impl Model for ServedRole {
    ghost use Rattle.local_store.specs.State.{StoreState};

    ghost Value = { StoreState };

    ghost view = { λ r. r.store };
}

impl ServedRole {
    /// The role with this store, before its first line.
    pub(crate) fn new(alloc: Global, store: Store) -> ServedRole
        ensures { result ≡ store }
    {
        ServedRole {
            reader: LineReader::new(alloc),
            store,
        }
    }

    /// Gives the store back.
    pub(crate) fn into_store(self) -> Store
        ensures { result ≡ self }
    {
        let ServedRole { reader: _, store } = self;
        store
    }
}

impl Responder for ServedRole {
    ghost use Rattle.role_server.specs.Served.{ServesLine};
    ghost use Rattle.role_server.specs.inner.Unread.{unread_replies};
    ghost use Rattle.wire_form.specs.declared.reply.Refusal.TheVariants.{F1};
    ghost use Rattle.wire_form.specs.declared.reply.Reply.TheVariants.{Refused};
    ghost use Rattle.wire_form.specs.Reply.{reply_text};

    ghost answers = { ServesLine };

    ghost unread = { λ s. reply_text s.protocol (Refused F1) };

    /// Answers the line. It says of a line that made an event that it is one to keep.
    fn answer(
        &mut self,
        alloc: Global,
        body: &[u8],
        replies: &mut Bytes,
    ) -> Result<bool, NoMemory> {
        match answer_line(&mut self.reader, &mut self.store, HELD_LIMIT, body) {
            Ok(reply) => push_told(alloc, replies, &self.store, &reply),
            Err(error) => Err(error),
        }
    }

    fn push_unread(&self, alloc: Global, replies: &mut Bytes) -> Result<(), NoMemory> {
        let reply = Reply::Refused(Refusal::F1);
        push_text(alloc, replies, &self.store, &reply)
    }

    ghost leaves_unread = { unread_replies };
}
