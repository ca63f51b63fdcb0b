ghost use Rattle.std.specs.Prelude.{◌≡◌, ◌≢◌, ℕ, ◌<◌, ◌≤◌, length, replicate, IfOk};
ghost use Rattle.std.specs.List.{AllPairs};
ghost use Rattle.bspl_types.specs.declared.value.Value.TheVariants.{Number};
ghost use Rattle.bspl_types.specs.Limits.{key_limit};
ghost use Rattle.agent_scripts.specs.StatedScript.{counted_keys, keys_given};
ghost use Rattle.agent_scripts.specs.ScriptText.{statements_of};

use super::plan::set_number;
use super::statements::StatementList;
use agent_scripts::Setting;
use bspl_types::{KEY_LIMIT, Key, NoMemory, Value};
use key_table::KeyTable;
use std::alloc::Global;

/// How many workload keys there are.
pub(crate) fn key_count(statements: &StatementList) -> u64
    ensures count { (width : ℕ) →
        result ≡ length (keys_given width (statements_of statements.now)) }
    ensures some { 0 < result }
    ensures few { result ≤ 10000 }
{
    let listed = statements.key_lines();
    if listed == 0 {
        set_number(statements.as_slice(), Setting::Keys, 1)
    } else {
        listed as u64
    }
}

/// The workload keys, of as many values each.
pub(crate) fn keys_of(
    alloc: Global,
    width: usize,
    statements: StatementList,
) -> Result<KeyTable, NoMemory>
    requires some_values { 0 < width }
    requires few_values { width ≤ key_limit }
    ensures keys { IfOk result (λ table. table ≡ keys_given width (statements_of statements)) }
    ensures distinct { IfOk result (λ table. AllPairs (λ k l. k ≢ l) table) }
    ensures some { IfOk result (λ table. 0 < length table) }
    ensures few { IfOk result (λ table. length table ≤ 10000) }
{
    let count = key_count(&statements);
    let table = if statements.key_lines() == 0 {
        counted_keys(alloc, width, count)?
    } else {
        statements.into_keys()
    };
    table.are_distinct(); // law: no key is there twice
    Ok(table)
}

/// As many keys, the n-th with the number n in each place.
fn counted_keys(alloc: Global, width: usize, count: u64) -> Result<KeyTable, NoMemory>
    requires some { 0 < width }
    requires few { width ≤ key_limit }
    ensures { IfOk result (λ table. table ≡ counted_keys width count) }
{
    let mut table = KeyTable::new(alloc);
    for n in 0..count {
        table.add(&counted_key(width, n + 1))?;
    }
    Ok(table)
}

/// The key with the number in each place.
fn counted_key(width: usize, n: u64) -> Key
    requires some { 0 < width }
    requires few { width ≤ key_limit }
    ensures { result ≡ replicate width (Number n) }
{
    let cells = [Value::Number(n); KEY_LIMIT];
    Key::of(&cells[..width])
}
