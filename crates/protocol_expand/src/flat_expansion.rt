ghost use Rattle.std.specs.Prelude.{◌≡◌, ◌≢◌, ◌++◌, map, IfOk, Some};
ghost use Rattle.std.specs.List.{All};
ghost use Rattle.bspl_parser.specs.declared.document.Adorn.TheVariants.{Any, Opt};
ghost use Rattle.protocol_paths.specs.FlatProtocol.{as_declaration};
ghost use Rattle.protocol_expand.specs.FlatExpansion.{adornment_of, public_param, private_param};
ghost use Rattle.protocol_expand.specs.FlatExpansion.{IsExpansionOf};
ghost use Rattle.protocol_expand.specs.WellScoped.{HasFixedAdornment, IsWellScoped};

use super::messages::messages_of;
use bspl_parser::{Adorn, Formal, Word};
use bspl_types::{
    Adornment, Expanded, NameList, NoMemory, ParamInfo, ParamInfoList, Seq, key_indices,
};
use protocol_paths::FlatProtocol;
use std::alloc::Global;

/// The expansion of a well-scoped protocol. No name and no count is tested again.
pub fn expansion_of_well_scoped(alloc: Global, p: &FlatProtocol) -> Result<Expanded, NoMemory>
    requires { IsWellScoped (as_declaration p.now) }
    ensures { IfOk result (IsExpansionOf (as_declaration p.now)) }
{
    let roles = role_names(alloc, p.roles.as_slice())?;
    let params = declared_params(alloc, p.public.as_slice(), p.private.as_slice())?;
    let messages = messages_of(
        alloc,
        roles.as_slice(),
        params.as_slice(),
        p.messages.as_slice(),
    )?;
    let keys = key_indices(alloc, params.as_slice())?;
    let name = Seq::from_slice(alloc, p.name.text.as_slice())?;
    Ok(Expanded {
        name,
        roles,
        params,
        public: p.public.len() as u32,
        keys,
        messages,
    })
}

/// The names of the roles.
fn role_names(alloc: Global, words: &[Word]) -> Result<NameList, NoMemory>
    ensures { IfOk result (λ names. names ≡ map (λ w. w.text) words.now) }
{
    let mut names = Seq::new(alloc);
    for word in words {
        names.push(Seq::from_slice(alloc, word.text.as_slice())?)?;
    }
    Ok(names)
}

/// The parameters, the public ones first.
fn declared_params(
    alloc: Global,
    public: &[Formal],
    private: &[Word],
) -> Result<ParamInfoList, NoMemory>
    requires { All HasFixedAdornment public.now }
    ensures { IfOk result
        (λ params. params ≡ map public_param public.now ++ map private_param private.now) }
{
    let mut params = Seq::new(alloc);
    for f in public {
        params.push(public_param(alloc, f)?)?;
    }
    for w in private {
        params.push(private_param(alloc, w)?)?;
    }
    Ok(params)
}

/// A public parameter.
fn public_param(alloc: Global, f: &Formal) -> Result<ParamInfo, NoMemory>
    requires { HasFixedAdornment f.now }
    ensures { IfOk result (λ p. p ≡ public_param f.now) }
{
    Ok(ParamInfo {
        name: Seq::from_slice(alloc, f.name.text.as_slice())?,
        adornment: Some(adornment_of(f.adorn)),
        key: f.key.is_some(),
    })
}

/// A private parameter.
fn private_param(alloc: Global, w: &Word) -> Result<ParamInfo, NoMemory>
    ensures { IfOk result (λ p. p ≡ private_param w.now) }
{
    Ok(ParamInfo {
        name: Seq::from_slice(alloc, w.text.as_slice())?,
        adornment: None,
        key: false,
    })
}

/// The adornment in an expansion, where it is supported.
pub(crate) fn adornment_of(adorn: Adorn) -> Adornment
    requires not_any { adorn ≢ Any }
    requires not_opt { adorn ≢ Opt }
    ensures { adornment_of adorn ≡ Some result }
{
    match adorn {
        Adorn::In => Adornment::In,
        Adorn::Out => Adornment::Out,
        _ => Adornment::Nil,
    }
}
