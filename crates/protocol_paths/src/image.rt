ghost use Rattle.std.specs.Prelude.{◌++◌, IfOk};
ghost use Rattle.std.specs.List.{AllZip};
ghost use Rattle.protocol_paths.specs.Flat.{IsImage, IsImageFormal};
ghost use Rattle.protocol_paths.specs.Substituted.{IsSubstituted};
ghost use Rattle.protocol_paths.specs.inner.ScopeOf.{scope_of};

use super::prefix::prefix_of;
use super::scope::Scope;
use super::substitution::{param_word, role_word};
use bspl_parser::{Formal, FormalList, Schema, Word};
use bspl_types::{NoMemory, Seq};
use std::alloc::Global;

/// The image of the message in the flat protocol.
pub(crate) fn image_of<'d>(
    alloc: Global,
    scope: &Scope<'d, '_>,
    schema: &'d Schema<'d>,
) -> Result<Schema<'d>, NoMemory>
    ensures { IfOk result (IsImage (scope_of scope.now) schema.now) }
{
    let name = prefixed_word(alloc, scope, &schema.name)?;
    let params = image_formals(alloc, scope, schema.params.as_slice())?;
    Ok(Schema {
        sender: role_word(scope, &schema.sender),
        receiver: role_word(scope, &schema.receiver),
        name,
        params,
    })
}

/// The word with the prefix of the scope.
fn prefixed_word<'d>(
    alloc: Global,
    scope: &Scope<'d, '_>,
    word: &'d Word<'d>,
) -> Result<Word<'d>, NoMemory>
    ensures { IfOk result
        (IsSubstituted ((scope_of scope.now).prefix ++ word.now.text) word.now) }
{
    let prefix = prefix_of(alloc, scope)?;
    prefix.into_word(alloc, word)
}

/// The images of a message's parameters.
fn image_formals<'d>(
    alloc: Global,
    scope: &Scope<'d, '_>,
    formals: &'d [Formal<'d>],
) -> Result<FormalList<'d>, NoMemory>
    ensures { IfOk result (AllZip (IsImageFormal (scope_of scope.now)) formals.now) }
{
    let mut images = Seq::new(alloc);
    for formal in formals {
        images.push(image_formal(scope, formal)?)?;
    }
    Ok(images)
}

/// The image of one parameter.
fn image_formal<'d>(scope: &Scope<'d, '_>, formal: &'d Formal<'d>) -> Result<Formal<'d>, NoMemory>
    ensures { IfOk result (IsImageFormal (scope_of scope.now) formal.now) }
{
    Ok(Formal {
        adorn: formal.adorn,
        offset: formal.offset,
        name: param_word(scope, &formal.name)?,
        key: None,
    })
}
