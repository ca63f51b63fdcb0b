ghost use Rattle.std.specs.Prelude.{◌∷◌, [], ◌++◌, List, cond, map, IfOk, MatchOption};
ghost use Rattle.std.specs.List.{Contains};
ghost use Rattle.bspl_parser.specs.declared.word.Word.{Word as SpecWord};
ghost use Rattle.protocol_names.specs.Names.{texts};
ghost use Rattle.protocol_paths.specs.FlatProtocol.{as_declaration};
ghost use Rattle.protocol_expand.specs.WellScoped.{AreDistinct};
ghost use Rattle.protocol_expand.specs.Repeats.{AreNamesDistinct, RepeatsFirst, RepeatsName};
ghost use Rattle.protocol_expand.specs.inner.Flat.{AreNoted};

use bspl_parser::{Formal, Schema, Word};
use bspl_types::NoMemory;
use protocol_names::NameTable;
use protocol_paths::FlatProtocol;
use std::alloc::Global;

/// The offset of the first name that an equal one comes before: of the messages in order, and after
/// them of the parameters.
#[tactic(auto, using(crate::proofs::Noted::names_of_messages))]
pub fn repeated_name(alloc: Global, flat: &FlatProtocol) -> Result<Option<u64>, NoMemory>
    ensures { IfOk result (λ found. MatchOption found
        (AreNamesDistinct (as_declaration flat.now)) (RepeatsName (as_declaration flat.now))) }
{
    if let Some(offset) = repeated_message(alloc, flat.messages.as_slice())? {
        return Ok(Some(offset));
    }
    repeated_param(alloc, flat.public.as_slice(), flat.private.as_slice())
}

/// The offset of the first message that has the name of one before it.
fn repeated_message(alloc: Global, messages: &[Schema]) -> Result<Option<u64>, NoMemory>
    ensures { IfOk result (λ found. MatchOption found
        (AreDistinct (map (λ s. s.name) messages.now))
        (RepeatsFirst (map (λ s. s.name) messages.now))) }
{
    let mut names = NameTable::new(alloc);
    for schema in messages {
        if note_name(&mut names, &schema.name)? {
            return Ok(Some(schema.name.offset));
        }
    }
    Ok(None)
}

/// The offset of the first parameter that has the name of one before it.
fn repeated_param<'n>(
    alloc: Global,
    public: &'n [Formal<'n>],
    private: &'n [Word<'n>],
) -> Result<Option<u64>, NoMemory>
    ensures { IfOk result (λ found. MatchOption found
        (AreDistinct (map (λ f. f.name) public.now ++ private.now))
        (RepeatsFirst (map (λ f. f.name) public.now ++ private.now))) }
{
    let mut names = NameTable::new(alloc);
    if let Some(offset) = repeated_public(&mut names, public)? {
        return Ok(Some(offset));
    }
    repeated_private(&mut names, private)
}

/// The offset of the first public parameter that has the name of one before it. The names are
/// noted.
fn repeated_public<'n>(
    names: &mut NameTable<'n>,
    public: &'n [Formal<'n>],
) -> Result<Option<u64>, NoMemory>
    requires { AreNoted [] names.old }
    ensures { IfOk result (λ found. MatchOption found
        (AreNoted (map (λ f. f.name) public.now) names.new)
        (RepeatsFirst (map (λ f. f.name) public.now))) }
{
    for formal in public {
        if note_name(names, &formal.name)? {
            return Ok(Some(formal.name.offset));
        }
    }
    Ok(None)
}

/// The offset of the first private parameter that has the name of one before it, or of a name that
/// was noted.
fn repeated_private<'n>(
    names: &mut NameTable<'n>,
    private: &'n [Word<'n>],
) -> Result<Option<u64>, NoMemory>
    ensures { (words : List SpecWord) → AreNoted words names.old → IfOk result (λ found.
        MatchOption found (AreDistinct (words ++ private.now))
        (RepeatsFirst (words ++ private.now))) }
{
    for word in private {
        if note_name(names, word)? {
            return Ok(Some(word.offset));
        }
    }
    Ok(None)
}

/// Whether the name is among the others. It is added to them.
fn note_name<'n>(names: &mut NameTable<'n>, word: &'n Word<'n>) -> Result<bool, NoMemory>
    ensures { (words : List SpecWord) → AreNoted words names.old → IfOk result (λ repeated.
        cond repeated (Contains (texts words) word.now.text)
        (AreNoted (words ++ word.now ∷ []) names.new)) }
{
    names.add(word.text.as_slice())
}
