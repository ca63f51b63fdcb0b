ghost use Rattle.std.specs.Prelude.{◌≡◌, [], slice_index_or};
ghost use Rattle.bspl_types.specs.Choice.{is_out};
ghost use Rattle.bspl_types.specs.Expansion.{param_name};
ghost use Rattle.html.specs.Tables.{adornment_word, is_key};

use super::wording::{IN, NIL, OUT};
use bspl_types::{Adornment, Expanded};

/// The name of the role with this number. Past the last one there is none.
pub fn role_name(x: &Expanded, role: u32) -> &[u8]
    ensures { result.now ≡ slice_index_or x.now.roles role [] }
{
    match x.roles.as_slice().get(role as usize) {
        Some(name) => name.as_slice(),
        None => b"",
    }
}

/// The name of the parameter with this number. Past the last one there is none.
pub fn param_name(x: &Expanded, param: u32) -> &[u8]
    ensures { result.now ≡ param_name x.now param }
{
    match x.params.as_slice().get(param as usize) {
        Some(info) => info.name.as_slice(),
        None => b"",
    }
}

/// Whether the parameter with this number is a key.
pub fn is_key(x: &Expanded, param: u32) -> bool
    ensures { result ≡ is_key x.now param }
{
    match x.params.as_slice().get(param as usize) {
        Some(info) => info.key,
        None => false,
    }
}

/// An adornment, as protocols have it.
pub(crate) fn adornment_word(adornment: Adornment) -> &'static [u8]
    ensures { result.now ≡ adornment_word adornment }
{
    match adornment {
        Adornment::In => IN,
        Adornment::Out => OUT,
        Adornment::Nil => NIL,
    }
}

/// Whether the adornment is `out`.
pub(crate) fn is_out(adornment: Adornment) -> bool
    ensures { result ≡ is_out adornment }
{
    match adornment {
        Adornment::Out => true,
        Adornment::In | Adornment::Nil => false,
    }
}
