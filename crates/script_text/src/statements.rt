ghost use Rattle.std.specs.Prelude.{◌≡◌, ◌≢◌, ◌≤◌, ◌↔◌, ◌||◌, ◌++◌, [], ◌∷◌, length, IsTrue, IfOk, OnOk};
ghost use Rattle.std.specs.List.{All, AllPairs, Contains, flat_map};
ghost use Rattle.agent_scripts.specs.declared.statement.Statement.TheVariants.{Key as SpecKey};
ghost use Rattle.agent_scripts.specs.Rules.{HasDistinct, KeepsRules, StandTogether, key_in};
ghost use Rattle.agent_scripts.specs.ScriptText.{KeepRules, statements_of};
ghost use Rattle.script_text.specs.Reading.{HasNumbers};
ghost use Rattle.script_text.specs.inner.Statements.{sets_keys};

use agent_scripts::{Setting, Stated, Statement};
use bspl_types::Key;
use key_table::KeyTable;
use list_base::{NoMemory, Seq};
use std::alloc::Global;
use std::marker::Model;

/// The most workload keys.
const MOST_KEYS: usize = 10_000;

/// Statements that keep the rules, in order. Contracts see a list.
#[derive(Drop)]
pub(crate) struct StatementList {
    stated: Seq<Stated>,
    keys: KeyTable,
    counted: bool,
}

impl Model for StatementList {
    ghost use Rattle.std.specs.Prelude.{List};
    ghost use Rattle.agent_scripts.specs.declared.statement.Stated.{Stated as SpecStated};
    ghost use Rattle.script_text.specs.inner.Statements.{AreStatements};

    ghost Value = { List SpecStated };

    ghost view = { λ s. s.stated };

    ghost invariant = { λ s. AreStatements s.stated s.keys s.counted };
}

impl StatementList {
    /// No statement.
    pub(crate) fn new(alloc: Global) -> StatementList
        ensures { result ≡ [] }
    {
        StatementList {
            stated: Seq::new(alloc),
            keys: KeyTable::new(alloc),
            counted: false,
        }
    }

    /// The statements, in order.
    pub(crate) fn as_slice(&self) -> &[Stated]
        ensures same { result.now ≡ self.now }
        ensures rules { KeepRules (statements_of self.now) }
        ensures numbers { All HasNumbers (statements_of self.now) }
        ensures few_keys { length (flat_map key_in (statements_of self.now)) ≤ 10000 }
    {
        self.stated.as_slice()
    }

    /// How many `key` lines there are.
    pub(crate) fn key_lines(&self) -> usize
        ensures count { result ≡ length (flat_map key_in (statements_of self.now)) }
        ensures few { result ≤ 10000 }
    {
        self.keys.len()
    }

    /// The keys of the `key` lines, in order.
    pub(crate) fn into_keys(self) -> KeyTable
        ensures { result ≡ flat_map key_in (statements_of self) }
    {
        self.keys
    }

    /// Whether the statement keeps the rules after these.
    pub(crate) fn allows(&self, statement: &Statement) -> bool
        ensures { IsTrue result ↔ KeepsRules (statements_of self.now) statement.now }
    {
        match statement {
            Statement::Key(key) => self.allows_key(key),
            _ => all_stand_with(self.as_slice(), statement) && has_distinct(statement),
        }
    }

    /// Whether a line with the key keeps the rules after these.
    fn allows_key(&self, key: &Key) -> bool
        ensures { IsTrue result ↔ KeepsRules (statements_of self.now) (SpecKey key.now) }
    {
        if self.counted {
            return false;
        }
        if self.keys.len() >= MOST_KEYS {
            return false;
        }
        !self.keys.has(key)
    }

    /// These statements and one more.
    pub(crate) fn with(self, stated: Stated) -> Result<StatementList, NoMemory>
        requires rules { KeepsRules (statements_of self) stated.statement }
        requires numbers { HasNumbers stated.statement }
        ensures { IfOk result (λ list. list ≡ self ++ stated ∷ []) }
    {
        let mut list = self;
        add_key(&mut list.keys, &stated.statement)?;
        list.counted = is_counted(list.counted, &stated.statement);
        list.stated.push(stated)?;
        Ok(list)
    }
}

/// Adds the key of a `key` line.
fn add_key(keys: &mut KeyTable, statement: &Statement) -> Result<(), NoMemory>
    requires { All (λ k. ¬ Contains keys.old k) (key_in statement.now) }
    ensures { OnOk result (keys.new ≡ keys.old ++ key_in statement.now) }
{
    if let Statement::Key(key) = statement {
        keys.add(key)?;
    }
    Ok(())
}

/// Whether a line `keys` was read, with the statement.
fn is_counted(counted: bool, statement: &Statement) -> bool
    ensures { result ≡ (counted || sets_keys statement.now) }
{
    counted || matches!(statement, Statement::Set(Setting::Keys, _))
}

/// Whether each of them can stand in one text with the statement.
fn all_stand_with(stated: &[Stated], statement: &Statement) -> bool
    ensures { IsTrue result ↔ All (λ s. StandTogether s.statement statement.now) stated.now }
{
    stated
        .iter()
        .all(|s| stand_together(&s.statement, statement))
}

/// Whether both can stand in one text.
fn stand_together(first: &Statement, second: &Statement) -> bool
    ensures { IsTrue result ↔ StandTogether first.now second.now }
{
    match (first, second) {
        (Statement::Set(setting, _), Statement::Set(other, _)) => setting != other,
        (Statement::Set(setting, _), Statement::Key(_)) => *setting != Setting::Keys,
        (Statement::Key(_), Statement::Set(setting, _)) => *setting != Setting::Keys,
        (Statement::Key(key), Statement::Key(other)) => !key.same(other),
        (Statement::Order(role, _), Statement::Order(other, _)) => role != other,
        (Statement::Decline(message, _), Statement::Decline(other, _)) => message != other,
        (Statement::Bind(message, param, _), Statement::Bind(other, another, _)) => {
            message != other || param != another
        }
        _ => true,
    }
}

/// Whether no message stands twice in the order, if it is one.
fn has_distinct(statement: &Statement) -> bool
    ensures { IsTrue result ↔ HasDistinct statement.now }
{
    match statement {
        Statement::Order(_, messages) => are_distinct(messages.as_slice()),
        _ => true,
    }
}

/// Whether no number stands twice. The first that does ends the search.
fn are_distinct(numbers: &[u32]) -> bool
    ensures { IsTrue result ↔ AllPairs (λ m n. m ≢ n) numbers.now }
{
    for (index, number) in numbers.iter().enumerate() {
        if is_among(&numbers[..index], *number) {
            return false;
        }
    }
    true
}

/// Whether the number is among them.
fn is_among(numbers: &[u32], number: u32) -> bool
    ensures { IsTrue result ↔ Contains numbers.now number }
{
    numbers.contains(&number)
}
