ghost use Rattle.std.specs.Prelude.{◌≡◌, IfOk};
ghost use Rattle.bspl_parser.specs.declared.document.Declaration.{Declaration as SpecDeclaration};
ghost use Rattle.protocol_paths.specs.Scope.{param_at, role_at};
ghost use Rattle.protocol_paths.specs.Substituted.{IsSubstituted};
ghost use Rattle.protocol_paths.specs.inner.Links.{scope_along};
ghost use Rattle.protocol_paths.specs.inner.OwnWords.{HaveOwnWords};
ghost use Rattle.protocol_paths.specs.inner.ScopeOf.{scope_of};

use super::link::PathLink;
use super::scope::Scope;
use bspl_parser::{Text, Word};
use bspl_types::NoMemory;

/// The role's word, under the name that is substituted for it in the scope.
pub(crate) fn role_word<'d>(scope: &Scope<'d, '_>, role: &'d Word<'d>) -> Word<'d>
    ensures { IsSubstituted (role_at (scope_of scope.now) role.now.text) role.now result }
{
    let given = given_role(scope.links, role);
    Word {
        text: Text::lent(given.text.as_slice()),
        offset: role.offset,
    }
}

/// The word that the references of a path give for a role.
fn given_role<'d>(links: &[PathLink<'d, '_>], role: &'d Word<'d>) -> &'d Word<'d>
    ensures { (top : SpecDeclaration) →
        result.now.text ≡ role_at (scope_along top links.now) role.now.text }
{
    let Some((last, outer)) = links.split_last() else {
        return role;
    };
    let Some(index) = last.link.names.roles.index(role.text.as_slice()) else {
        return role;
    };
    match last.link.reference.roles.as_slice().get(index) {
        Some(given) => given_role(outer, given),
        None => role,
    }
}

/// The parameter's word, under the name that is substituted for it in the scope. It shares the text
/// of that name.
pub(crate) fn param_word<'d>(
    scope: &Scope<'d, '_>,
    param: &'d Word<'d>,
) -> Result<Word<'d>, NoMemory>
    ensures { IfOk result (IsSubstituted (param_at (scope_of scope.now) param.now.text) param.now) }
{
    let given = given_param(scope.links, param);
    Ok(Word {
        text: given.text.share()?,
        offset: param.offset,
    })
}

/// The word that the references of a path give for a parameter. A private one is that of the link
/// to the protocol that declares it, with its prefix.
fn given_param<'d, 'o>(links: &[PathLink<'d, 'o>], param: &'o Word<'d>) -> &'o Word<'d>
    ensures { (top : SpecDeclaration) → HaveOwnWords top links.now →
        result.now.text ≡ param_at (scope_along top links.now) param.now.text }
{
    let Some((last, outer)) = links.split_last() else {
        return param;
    };
    let Some(index) = last.link.names.params.index(param.text.as_slice()) else {
        return param;
    };
    let given = last.link.reference.params.as_slice();
    if let Some(formal) = given.get(index) {
        return given_param(outer, &formal.name);
    }
    let Some(own) = last.own.get(index - given.len()) else {
        return param;
    };
    own
}
