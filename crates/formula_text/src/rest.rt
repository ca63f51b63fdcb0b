ghost use Rattle.std.specs.Prelude.{◌≡◌, ◌++◌, ◌+◌, ◌≤◌, length, map, OnOk};
ghost use Rattle.std.specs.List.{enumerate_from, flat_map};
ghost use Rattle.bspl_types.specs.declared.property.Property.TheVariants.{Liveness};
ghost use Rattle.formula_text.specs.FormulaText.{meaning_line};
ghost use Rattle.formula_text.specs.Legend.{lack, own_meanings, unbound};

use super::kinds::{message_name, param_name};
use super::meaning::push_meaning;
use bspl_types::Expanded;
use clause_encoding::{Want, public_values, wants_of};
use list_base::{Bytes, NoMemory};
use std::alloc::Global;

/// Appends the lines that only a liveness formula has. Their variables come after the event kinds.
pub(crate) fn push_rest(text: &mut Bytes, alloc: Global, x: &Expanded) -> Result<(), NoMemory>
    ensures { OnOk result
        (text.new ≡ text.old ++ flat_map meaning_line (own_meanings Liveness x.now)) }
{
    let params = public_values(alloc, x)?;
    let wants = wants_of(alloc, x)?;
    let first = 2 * x.messages.len() as u32 + 1;
    push_unbound(text, x, first, params.as_slice())?;
    push_lacks(text, x, first + params.len() as u32, wants.as_slice())
}

/// Appends the lines of the parameters that may be unbound. The variable of the first is `first`.
fn push_unbound(text: &mut Bytes, x: &Expanded, first: u32, params: &[u32]) -> Result<(), NoMemory>
    requires { first + length params.now ≤ 4096 }
    ensures { let numbered = enumerate_from first params.now in OnOk result
        (text.new ≡ text.old ++ flat_map meaning_line (map (unbound x.now) numbered)) }
{
    let mut variable = first;
    for param in params {
        push_meaning(text, variable, &[b"unbound", param_name(x, *param)])?;
        variable += 1;
    }
    Ok(())
}

/// Appends the lines of what the senders may lack. The variable of the first is `first`.
fn push_lacks(text: &mut Bytes, x: &Expanded, first: u32, wants: &[Want]) -> Result<(), NoMemory>
    requires { first + length wants.now ≤ 4096 }
    ensures { let numbered = enumerate_from first wants.now in OnOk result
        (text.new ≡ text.old ++ flat_map meaning_line (map (lack x.now) numbered)) }
{
    let mut variable = first;
    for want in wants {
        push_lack(text, x, variable, *want)?;
        variable += 1;
    }
    Ok(())
}

/// Appends the line of one of them.
fn push_lack(text: &mut Bytes, x: &Expanded, variable: u32, want: Want) -> Result<(), NoMemory>
    ensures { OnOk result (text.new ≡ text.old ++ meaning_line (lack x.now (variable, want))) }
{
    let param = param_name(x, want.param);
    let message = message_name(x, want.message);
    push_meaning(text, variable, &[b"lacks", param, b"for", message])
}
