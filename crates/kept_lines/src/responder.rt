ghost use Rattle.std.specs.Prelude.{◌≡◌, ◌≢◌, ◌++◌, ◌∷◌, [], All, IfOk, OnOk};
ghost use Rattle.kept_lines.specs.Answers.{RepliesTo};

use list_base::{Bytes, NoMemory};
use std::alloc::Global;

/// Answers lines one by one, and says of each whether it is to be kept.
pub trait Responder {
    ghost use Rattle.std.specs.Prelude.{List, ℕ, Bool};
    ghost use Rattle.list_base.specs.Lines.{Line};
    ghost use Rattle.kept_lines.specs.Answers.{LeavesUnread};

    // The reply that a line gets, whether the line is kept, and the responder after it.
    ghost answers: { Self → Line → List ℕ → Bool → Self → Type 0 };

    // The reply to a line of more than 65,536 bytes, and to one that lacks its LF when the input
    // ends.
    ghost unread: { Self → List ℕ };

    /// Answers the line with this body and an LF: appends its reply, and says whether the line is
    /// to be kept. The body has no LF. After an error neither the responder nor the replies are
    /// known, so whoever calls gives up both.
    fn answer(&mut self, alloc: Global, body: &[u8], replies: &mut Bytes) -> Result<bool, NoMemory>
        requires { All (λ byte. byte ≢ 10) body.now }
        ensures { IfOk result (λ is_kept. RepliesTo answers self.old (body.now ++ 10 ∷ [])
            replies.old replies.new is_kept self.new) };

    /// Appends the reply to a line that is too long or lacks its LF.
    fn push_unread(&self, alloc: Global, replies: &mut Bytes) -> Result<(), NoMemory>
        ensures { OnOk result (replies.new ≡ replies.old ++ unread self.now) };

    // A law: such a line gets that reply, is not kept, and changes nothing.
    ghost leaves_unread: { LeavesUnread answers unread };
}
