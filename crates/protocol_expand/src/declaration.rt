ghost use Rattle.std.specs.Prelude.{◌≡◌, ◌≢◌, false, IsTrue, IfOk, None, Some, is_some};
ghost use Rattle.std.specs.List.{All, AllZip};
ghost use Rattle.bspl_types.specs.Name.{is_name};
ghost use Rattle.bspl_parser.specs.Alike.{key_without_offset};
ghost use Rattle.bspl_parser.specs.Spelling.{IsDeclaration};
ghost use Rattle.protocol_expand.specs.FlatExpansion.{adornment_of, IsExpansionOf};
ghost use Rattle.protocol_expand.specs.Canonical.{IsCanonical, IsItemOf, IsPrivateOf, IsPublicOf};
ghost use Rattle.protocol_expand.specs.Canonical.{IsWordOf};

use super::schemas::items_of;
use bspl_parser::{Adorn, Declaration, Formal, FormalList, ItemList, Text, Word, WordList};
use bspl_types::{Adornment, Expanded, Name, NoMemory, ParamInfo, Seq};
use std::alloc::Global;

/// A protocol of messages alone that has the expansion. Its words have no offsets, so it is for
/// printing.
pub fn declaration_of(alloc: Global, x: &Expanded) -> Result<Declaration<'_>, NoMemory>
    ensures flat { IfOk result (λ d. IsExpansionOf d x.now) }
    ensures formed { IfOk result IsDeclaration }
    ensures bare { IfOk result IsCanonical }
{
    let roles = role_words(alloc, x.roles.as_slice())?;
    let params = x.params.as_slice();
    let body = items_of(alloc, x.roles.as_slice(), params, x.messages.as_slice())?;
    with_params(alloc, x, roles, body)
}

/// The protocol of these roles and of this body, with the parameters of the expansion.
fn with_params<'x>(
    alloc: Global,
    x: &'x Expanded,
    roles: WordList<'x>,
    body: ItemList<'x>,
) -> Result<Declaration<'x>, NoMemory>
    requires roles { AllZip IsWordOf x.now.roles roles }
    requires body { AllZip (IsItemOf x.now.roles x.now.params) x.now.messages body }
    ensures flat { IfOk result (λ d. IsExpansionOf d x.now) }
    ensures formed { IfOk result IsDeclaration }
    ensures bare { IfOk result IsCanonical }
{
    let (public, private) = x.params.as_slice().split_at(x.public as usize);
    let public = public_formals(alloc, public)?;
    let private = private_words(alloc, private)?;
    Ok(Declaration {
        name: word_of(&x.name),
        roles,
        public,
        private,
        body,
    })
}

/// The word for a name.
pub(crate) fn word_of(name: &Name) -> Word<'_>
    requires { IsTrue (is_name name.now) }
    ensures { IsWordOf name.now result }
{
    Word {
        text: Text::lent(name.as_slice()),
        offset: 0,
    }
}

/// The words for the roles.
fn role_words(alloc: Global, names: &[Name]) -> Result<WordList<'_>, NoMemory>
    requires { All (λ n. IsTrue (is_name n)) names.now }
    ensures { IfOk result (AllZip IsWordOf names.now) }
{
    let mut words = Seq::new(alloc);
    for name in names {
        words.push(word_of(name))?;
    }
    Ok(words)
}

/// The public parameters.
fn public_formals(alloc: Global, params: &[ParamInfo]) -> Result<FormalList<'_>, NoMemory>
    requires named { All (λ p. IsTrue (is_name p.name)) params.now }
    requires adorned { All (λ p. p.adornment ≢ None) params.now }
    ensures { IfOk result (AllZip IsPublicOf params.now) }
{
    let mut formals = Seq::new(alloc);
    for p in params {
        formals.push(public_formal(p))?;
    }
    Ok(formals)
}

/// One public parameter.
fn public_formal(p: &ParamInfo) -> Formal<'_>
    requires named { IsTrue (is_name p.now.name) }
    requires adorned { p.now.adornment ≢ None }
    ensures { IsPublicOf p.now result }
{
    Formal {
        adorn: public_adorn(p.adornment),
        offset: 0,
        name: word_of(&p.name),
        key: key_mark(p.key),
    }
}

/// The adornment of a public parameter, which has one, as a text has it.
fn public_adorn(adornment: Option<Adornment>) -> Adorn
    requires { adornment ≢ None }
    ensures { adornment_of result ≡ adornment }
{
    match adornment {
        Some(Adornment::In) => Adorn::In,
        Some(Adornment::Out) => Adorn::Out,
        _ => Adorn::Nil,
    }
}

/// The word `key`, if the parameter is a key.
fn key_mark(key: bool) -> Option<u64>
    ensures marked { is_some result ≡ key }
    ensures without_offsets { key_without_offset result ≡ result }
{
    if key { Some(0) } else { None }
}

/// The adornment as a text has it.
pub(crate) fn adorn_of(adornment: Adornment) -> Adorn
    ensures { adornment_of result ≡ Some adornment }
{
    match adornment {
        Adornment::In => Adorn::In,
        Adornment::Out => Adorn::Out,
        Adornment::Nil => Adorn::Nil,
    }
}

/// The private parameters.
fn private_words(alloc: Global, params: &[ParamInfo]) -> Result<WordList<'_>, NoMemory>
    requires named { All (λ p. IsTrue (is_name p.name)) params.now }
    requires bare { All (λ p. p.adornment ≡ None) params.now }
    requires unkeyed { All (λ p. p.key ≡ false) params.now }
    ensures { IfOk result (AllZip IsPrivateOf params.now) }
{
    let mut words = Seq::new(alloc);
    for p in params {
        words.push(private_word(p))?;
    }
    Ok(words)
}

/// One private parameter.
fn private_word(p: &ParamInfo) -> Word<'_>
    requires named { IsTrue (is_name p.now.name) }
    requires bare { p.now.adornment ≡ None }
    requires unkeyed { p.now.key ≡ false }
    ensures { IsPrivateOf p.now result }
{
    word_of(&p.name)
}
