ghost use Rattle.std.specs.Prelude.{◌≡◌, ◌<◌, ◌-◌, drop, length, map, Some};
ghost use Rattle.std.specs.List.{Contains};
ghost use Rattle.std.specs.Str.{bytes_eq};
ghost use Rattle.protocol_expand.specs.FlatExpansion.{param_index};

use bspl_types::ParamInfo;

/// How many bytes of two names are compared before the rest.
const ENDING: usize = 32;

/// The first index of the parameter's name, which is declared.
pub(crate) fn param_index(params: &[ParamInfo], name: &[u8]) -> usize
    requires { Contains (map (λ p. p.name) params.now) name.now }
    ensures found { param_index params.now name.now ≡ Some result }
    ensures within { result < length params.now }
{
    let mut index = 0;
    while !has_name(&params[index], name) {
        index += 1;
    }
    index
}

/// Whether the parameter has the name. Private names of one protocol have one prefix, which may be
/// long, so their ends are compared first.
#[tactic(auto, using(crate::proofs::EndLemmas::ends_differ))]
fn has_name(p: &ParamInfo, name: &[u8]) -> bool
    ensures { result ≡ bytes_eq p.now.name name.now }
{
    let own = p.name.as_slice();
    ending(own) == ending(name) && own == name
}

/// The last bytes of a name, or all if they are few.
fn ending(name: &[u8]) -> &[u8]
    ensures { result.now ≡ drop (length name.now - 32) name.now }
{
    &name[name.len().saturating_sub(ENDING)..]
}
