ghost use Rattle.std.specs.Prelude.{◌≡◌, ◌<◌, ◌∷◌, []};
ghost use Rattle.formula_text.specs.Legend.{kind_words, direction_word};
ghost use Rattle.bspl_types.specs.Expansion.{message_name, param_name};

use bspl_types::Expanded;

/// The name of the message of the index; past the last one it is empty.
pub(crate) fn message_name(x: &Expanded, m: u32) -> &[u8]
    ensures { result.now ≡ message_name x.now m }
{
    match x.messages.as_slice().get(m as usize) {
        Some(message) => message.name.as_slice(),
        None => &[],
    }
}

/// The name of the parameter of the index; past the last one it is empty.
pub(crate) fn param_name(x: &Expanded, p: u32) -> &[u8]
    ensures { result.now ≡ param_name x.now p }
{
    match x.params.as_slice().get(p as usize) {
        Some(param) => param.name.as_slice(),
        None => &[],
    }
}

/// What an event kind is: `sent` or `received`, and the name of its message.
pub(crate) fn words_of_kind(x: &Expanded, kind: u32) -> (&[u8], &[u8])
    requires { 0 < kind }
    ensures { result.0.now ∷ result.1.now ∷ [] ≡ kind_words x.now kind }
{
    let m = (kind - 1) / 2;
    let is_sent = u64::from(kind) == 2 * u64::from(m) + 1;
    (act_word(is_sent), message_name(x, m))
}

/// The word for what is done with a message.
fn act_word(is_sent: bool) -> &'static [u8]
    ensures { result.now ≡ direction_word is_sent }
{
    if is_sent { b"sent" } else { b"received" }
}
