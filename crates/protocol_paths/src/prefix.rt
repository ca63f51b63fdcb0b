ghost use Rattle.std.specs.Prelude.{◌≡◌, ◌<◌, ◌++◌, [], codes, IfOk, OnOk};
ghost use Rattle.bspl_parser.specs.declared.document.Declaration.{Declaration as SpecDeclaration};
ghost use Rattle.protocol_paths.specs.Prefix.{IsPrefix, numbered_name};
ghost use Rattle.protocol_paths.specs.Scope.{prefix_after};
ghost use Rattle.protocol_paths.specs.Substituted.{IsSubstituted};
ghost use Rattle.protocol_paths.specs.inner.Links.{scope_along, step_of};
ghost use Rattle.protocol_paths.specs.inner.ScopeOf.{scope_of};

use super::copies::copied_word;
use super::link::{Link, PathLink};
use super::scope::Scope;
use bspl_parser::{Text, Word};
use bspl_types::{Bytes, NoMemory, Seq};
use std::alloc::Global;

/// The prefix of the private names and message names of a protocol at the end of a path.
#[derive(Drop)]
pub(crate) struct Prefix {
    /// Its bytes.
    pub text: Bytes,
    pub ghost before_names: { IsPrefix text },
}

impl Prefix {
    /// The prefix of the top protocol.
    fn none(alloc: Global) -> Prefix
        ensures { result.text ≡ [] }
    {
        Prefix {
            text: Seq::new(alloc),
        }
    }

    /// The prefix after one more reference, at the position, to the target.
    fn longer(self, alloc: Global, target: &Word, position: usize) -> Result<Prefix, NoMemory>
        requires { 0 < position }
        ensures { IfOk result (λ p.
            p.text ≡ self.text ++ numbered_name target.now.text position) }
    {
        let number = position.to_string(alloc)?;
        let mut text = self.text;
        add_numbered(&mut text, target.text.as_slice(), number.as_bytes())?;
        Ok(Prefix { text })
    }

    /// The word with the prefix.
    pub fn word<'d>(&self, alloc: Global, word: &'d Word<'d>) -> Result<Word<'d>, NoMemory>
        ensures { IfOk result (IsSubstituted (self.now.text ++ word.now.text) word.now) }
    {
        let prefix = self.copied(alloc, word.text.as_slice().len())?;
        prefix.into_word(alloc, word)
    }

    /// The word with the prefix, in the prefix's memory if it has some.
    pub fn into_word<'d>(self, alloc: Global, word: &'d Word<'d>) -> Result<Word<'d>, NoMemory>
        ensures { IfOk result (IsSubstituted (self.text ++ word.now.text) word.now) }
    {
        if self.text.is_empty() {
            return Ok(copied_word(word));
        }
        let mut text = self.text;
        text.append(word.text.as_slice())?;
        Ok(Word {
            text: Text::own(alloc, text)?,
            offset: word.offset,
        })
    }

    /// A prefix of the same bytes, which has memory for a name of the length after it.
    fn copied(&self, alloc: Global, length: usize) -> Result<Prefix, NoMemory>
        ensures { IfOk result (λ p. p.text ≡ self.now.text) }
    {
        let room = self.text.len().saturating_add(length);
        let mut text = Seq::with_room(alloc, room)?;
        text.append(self.text.as_slice())?;
        Ok(Prefix { text })
    }
}

/// Adds the name with the number: NAME#NUMBER.
fn add_numbered(text: &mut Bytes, name: &[u8], number: &[u8]) -> Result<(), NoMemory>
    ensures { OnOk result
        (text.new ≡ (((text.old ++ name.now) ++ codes "#") ++ number.now) ++ codes ".") }
{
    text.append(name)?;
    text.append(b"#")?;
    text.append(number)?;
    text.append(b".")
}

/// The prefix of the scope.
pub(crate) fn prefix_of(alloc: Global, scope: &Scope) -> Result<Prefix, NoMemory>
    ensures { IfOk result (λ p. p.text ≡ (scope_of scope.now).prefix) }
{
    prefix_along(alloc, scope.links)
}

/// The prefix of the scope after the link.
pub(crate) fn next_prefix(alloc: Global, scope: &Scope, link: &Link) -> Result<Prefix, NoMemory>
    ensures { IfOk result (λ p.
        p.text ≡ prefix_after (scope_of scope.now) (step_of link.now)) }
{
    let prefix = prefix_of(alloc, scope)?;
    prefix.longer(alloc, &link.target.name, link.position)
}

/// The prefix at the end of the links.
fn prefix_along(alloc: Global, links: &[PathLink]) -> Result<Prefix, NoMemory>
    ensures { (top : SpecDeclaration) →
        IfOk result (λ p. p.text ≡ (scope_along top links.now).prefix) }
{
    let mut prefix = Prefix::none(alloc);
    for step in links {
        prefix = prefix.longer(alloc, &step.link.target.name, step.link.position)?;
    }
    Ok(prefix)
}
