ghost use Rattle.std.specs.Prelude.{◌≡◌, ◌++◌, ◌≤◌, IfOk, OnOk, length};
ghost use Rattle.std.specs.List.{flat_map};
ghost use Rattle.list_base.specs.Numeral.{numeral};
ghost use Rattle.workload.specs.Stage.{stage_carried, stage_message, stage_messages};
ghost use Rattle.workload.specs.Stage.{stage_numbers, stage_parameter, stage_parameters};
ghost use Rattle.workload.specs.Stage.{stage_roles, stage_text};

use list_base::{Bytes, NoMemory};
use std::alloc::Global;
use text_lines::push_decimal;

/// The text of a protocol of `n` stages, and of agents that play it under a thousand keys with the
/// seed `n`.
pub fn generate(alloc: Global, n: u32) -> Result<Bytes, NoMemory>
    requires { (1 ≤ n) × (n ≤ 16) }
    ensures text { IfOk result (λ text. text ≡ stage_text n) }
    ensures short { IfOk result (λ text. length text ≤ 2048) }
{
    let mut text = Bytes::from_slice(alloc, b"Stage {\n  roles A, B\n")?;
    push_parameters(&mut text, n)?;
    push_stages(&mut text, n)?;
    text.append(b"}\n")?;
    text.append(b"%% agents\nkeys 1000\nseed ")?;
    push_number(&mut text, n)?;
    text.push(b'\n')?;
    Ok(text)
}

/// Appends the line of the public parameters.
fn push_parameters(text: &mut Bytes, n: u32) -> Result<(), NoMemory>
    ensures { OnOk result (text.new ≡ text.old ++ stage_parameters n) }
{
    text.append(b"  parameters out ID key")?;
    push_produced(text, n)?;
    text.push(b'\n')
}

/// Appends the parameter that each stage produces.
fn push_produced(text: &mut Bytes, n: u32) -> Result<(), NoMemory>
    ensures { OnOk result (text.new ≡ text.old ++ flat_map stage_parameter (stage_numbers n)) }
{
    for before in 0..n {
        push_parameter(text, before + 1)?;
    }
    Ok(())
}

/// Appends the parameter that the stage produces.
fn push_parameter(text: &mut Bytes, i: u32) -> Result<(), NoMemory>
    ensures { OnOk result (text.new ≡ text.old ++ stage_parameter i) }
{
    text.append(b", out x")?;
    push_number(text, i)
}

/// Appends the messages of all stages.
fn push_stages(text: &mut Bytes, n: u32) -> Result<(), NoMemory>
    ensures { OnOk result (text.new ≡ text.old ++ flat_map stage_messages (stage_numbers n)) }
{
    for before in 0..n {
        push_messages(text, b"yes", b"no", before + 1)?;
    }
    Ok(())
}

/// Appends a message of the stage for each answer. Agents try the first one before the other.
fn push_messages(text: &mut Bytes, first: &[u8], other: &[u8], i: u32) -> Result<(), NoMemory>
    requires { 1 ≤ i }
    ensures { OnOk result
        (text.new ≡ text.old ++ (stage_message first.now i ++ stage_message other.now i)) }
{
    push_message(text, first, i)?;
    push_message(text, other, i)
}

/// Appends the message of the stage that gives the answer.
fn push_message(text: &mut Bytes, answer: &[u8], i: u32) -> Result<(), NoMemory>
    requires { 1 ≤ i }
    ensures { OnOk result (text.new ≡ text.old ++ stage_message answer.now i) }
{
    text.append(b"  ")?;
    text.append(roles(i))?;
    text.append(b": ")?;
    text.append(answer)?;
    push_number(text, i)?;
    text.append(b"[")?;
    push_carried(text, i)?;
    text.append(b"]\n")
}

/// Who sends to whom at the stage.
fn roles(i: u32) -> &'static [u8]
    ensures { result.now ≡ stage_roles i }
{
    if i % 2 == 1 { b"A -> B" } else { b"B -> A" }
}

/// Appends what a message of the stage carries.
fn push_carried(text: &mut Bytes, i: u32) -> Result<(), NoMemory>
    requires { 1 ≤ i }
    ensures { OnOk result (text.new ≡ text.old ++ stage_carried i) }
{
    if i == 1 {
        return text.append(b"out ID, out x1");
    }
    text.append(b"in ID, in x")?;
    push_number(text, i - 1)?;
    push_parameter(text, i)
}

/// Appends the number in decimal.
fn push_number(text: &mut Bytes, number: u32) -> Result<(), NoMemory>
    ensures { OnOk result (text.new ≡ text.old ++ numeral number) }
{
    push_decimal(text, u64::from(number))
}
