ghost use Rattle.std.specs.Prelude.{◌≡◌, ◌↔◌, ◌++◌, ◌∷◌, ◌<◌, [], false, length, IfOk, OnOk};
ghost use Rattle.std.specs.Prelude.{IsTrue};
ghost use Rattle.kept_lines.specs.Answers.{RepliesTo};
ghost use Rattle.role_server.specs.Live.{first_live_store, with_live_room};
ghost use Rattle.wire_form.specs.declared.reply.Refusal.TheVariants.{F1};
ghost use Rattle.wire_form.specs.declared.reply.Reply.TheVariants.{Refused};
ghost use Rattle.wire_form.specs.Meaning.{AsksNothing};
ghost use Rattle.wire_form.specs.Reply.{reply_text};
ghost use Rattle.role_questions.specs.Asked.{AskedReplies};

use super::answer::push_answer;
use super::laws::question_is_one;
use super::line::read_question;
use super::question::QuestionReading;
use bspl_types::{Admitted, equal_values_are_one};
use kept_lines::Responder;
use list_base::{Bytes, NoMemory};
use local_store::Store;
use role_server::{LiveRole, push_told};
use std::alloc::Global;
use std::marker::Model;
use wire_form::{Refusal, Reply, push_reply};

/// A live role that answers questions too. They change nothing and are not kept.
#[derive(Drop)]
pub struct AskedRole {
    role: LiveRole,
}

impl Model for AskedRole {
    ghost use Rattle.local_store.specs.State.{StoreState};

    ghost Value = { StoreState };

    ghost view = { λ r. r.role };
}

impl AskedRole {
    /// The role before its first line.
    pub fn new(alloc: Global, a: &Admitted, role: u32) -> Result<AskedRole, NoMemory>
        requires { role < length a.now.roles }
        ensures { IfOk result (λ r. r ≡ first_live_store a.now role) }
    {
        match LiveRole::new(alloc, a, role) {
            Ok(role) => Ok(AskedRole { role }),
            Err(error) => Err(error),
        }
    }
}

impl Responder for AskedRole {
    ghost use Rattle.role_questions.specs.Asked.{AskedReplies};
    ghost use Rattle.role_questions.specs.inner.AskedUnread.{asked_unread};
    ghost use Rattle.wire_form.specs.declared.reply.Refusal.TheVariants.{F1};
    ghost use Rattle.wire_form.specs.declared.reply.Reply.TheVariants.{Refused};
    ghost use Rattle.wire_form.specs.Reply.{reply_text};

    ghost answers = { AskedReplies };

    ghost unread = { λ s. reply_text s.protocol (Refused F1) };

    // Acts are many, so a line is first read as one.
    fn answer(
        &mut self,
        alloc: Global,
        body: &[u8],
        replies: &mut Bytes,
    ) -> Result<bool, NoMemory> {
        // law: a line that asks for an act puts no question
        question_is_one();
        // law: `==` of keys is equality
        equal_values_are_one();
        match self.role.reply(body) {
            Ok(reply) if says_no_request(&reply) => ask(alloc, self.role.store(), body, replies),
            Ok(reply) => push_told(alloc, replies, self.role.store(), &reply),
            Err(error) => Err(error),
        }
    }

    fn push_unread(&self, alloc: Global, replies: &mut Bytes) -> Result<(), NoMemory> {
        let x = self.role.store().admitted().expanded();
        push_reply(alloc, replies, x, &Reply::Refused(Refusal::F1))
    }

    ghost leaves_unread = { asked_unread };
}

/// Whether the reply says that its line asks for no act.
fn says_no_request(reply: &Reply) -> bool
    ensures { IsTrue result ↔ (reply.now ≡ Refused F1) }
{
    matches!(reply, Reply::Refused(Refusal::F1))
}

/// Answers the line with this body, which asks for no act.
fn ask(alloc: Global, store: &Store, body: &[u8], replies: &mut Bytes) -> Result<bool, NoMemory>
    requires { AsksNothing (body.now ++ 10 ∷ []) }
    ensures { IfOk result (λ is_kept. RepliesTo AskedReplies (with_live_room store.now)
        (body.now ++ 10 ∷ []) replies.old replies.new is_kept (with_live_room store.now)) }
{
    match read_question(alloc, store.admitted(), body) {
        Ok(QuestionReading::NotRead) => refuse(alloc, store, Refusal::F1, replies),
        Ok(QuestionReading::NotMeant) => refuse(alloc, store, Refusal::F2, replies),
        Ok(QuestionReading::Meant(question)) => {
            push_answer(alloc, replies, store, &question)?;
            Ok(false)
        }
        Err(error) => Err(error),
    }
}

/// Appends that the line is refused, which is then not kept.
fn refuse(
    alloc: Global,
    store: &Store,
    refusal: Refusal,
    replies: &mut Bytes,
) -> Result<bool, NoMemory>
    ensures text { OnOk result (replies.new ≡
        replies.old ++ reply_text store.now.protocol (Refused refusal)) }
    ensures kept { IfOk result (λ is_kept. is_kept ≡ false) }
{
    push_reply(
        alloc,
        replies,
        store.admitted().expanded(),
        &Reply::Refused(refusal),
    )?;
    Ok(false)
}
