ghost use Rattle.std.specs.Prelude.{◌≡◌, ◌++◌, IfOk, OnOk};
ghost use Rattle.bspl_types.specs.Expansion.{role_name};
ghost use Rattle.history_audit.specs.HistoryText.{role_line};
ghost use Rattle.live_role.specs.Journal.{IsJournalHead};

use bspl_types::Expanded;
use list_base::{Bytes, NoMemory};
use protocol_expand::print_expanded;
use std::alloc::Global;

/// The head of the journals of a role.
pub fn journal_head(alloc: Global, x: &Expanded, role: u32) -> Result<Bytes, NoMemory>
    ensures { IfOk result (IsJournalHead x.now role) }
{
    let mut head = print_expanded(alloc, x)?;
    head.append(b"%% wire\n")?;
    push_role_line(&mut head, x, role)?;
    Ok(head)
}

/// Appends the line that names the role.
fn push_role_line(text: &mut Bytes, x: &Expanded, role: u32) -> Result<(), NoMemory>
    ensures { OnOk result (text.new ≡ text.old ++ role_line x.now role) }
{
    text.append(b"role ")?;
    text.append(name_of_role(x, role))?;
    text.push(b'\n')
}

/// The name of the role with this index. Past the last one there is no name.
fn name_of_role(x: &Expanded, role: u32) -> &[u8]
    ensures { result.now ≡ role_name x.now role }
{
    match x.roles.as_slice().get(role as usize) {
        Some(name) => name.as_slice(),
        None => b"",
    }
}
