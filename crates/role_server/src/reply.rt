ghost use Rattle.std.specs.Prelude.{◌≡◌, ◌++◌, IfOk, OnOk};
ghost use Rattle.role_server.specs.Served.{tells_event};
ghost use Rattle.wire_form.specs.Reply.{reply_text};

use list_base::{Bytes, NoMemory};
use local_store::{Receipt, Store};
use std::alloc::Global;
use wire_form::{Reply, push_reply};

/// Appends the text of the reply.
pub(crate) fn push_text(
    alloc: Global,
    text: &mut Bytes,
    store: &Store,
    reply: &Reply,
) -> Result<(), NoMemory>
    ensures { OnOk result (text.new ≡ text.old ++ reply_text store.now.protocol reply.now) }
{
    push_reply(alloc, text, store.admitted().expanded(), reply)
}

/// Appends the text of the reply, and gives whether the reply says that its line made an event.
pub fn push_told(
    alloc: Global,
    text: &mut Bytes,
    store: &Store,
    reply: &Reply,
) -> Result<bool, NoMemory>
    ensures text { OnOk result (text.new ≡ text.old ++ reply_text store.now.protocol reply.now) }
    ensures event { IfOk result (λ is_event. is_event ≡ tells_event reply.now) }
{
    push_text(alloc, text, store, reply)?;
    Ok(tells_event(reply))
}

/// Whether the reply says that its line made an event.
fn tells_event(reply: &Reply) -> bool
    ensures { result ≡ tells_event reply.now }
{
    matches!(reply, Reply::Sent(_) | Reply::Received(Receipt::Fresh))
}
