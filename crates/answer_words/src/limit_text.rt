ghost use Rattle.std.specs.Prelude.{◌≡◌};
ghost use Rattle.answer_words.specs.LimitText.{limit_text};

use super::wording;
use bspl_types::What;

/// How many there may be of what is counted.
pub(crate) fn limit_text(what: What) -> &'static [u8]
    ensures { result.now ≡ limit_text what }
{
    match what {
        What::Text => wording::TEXT_LIMIT,
        What::Protocols => wording::PROTOCOL_LIMIT,
        What::Depth => wording::DEPTH_LIMIT,
        What::Roles => wording::ROLE_LIMIT,
        What::Parameters => wording::PARAMETER_LIMIT,
        What::Keys => wording::KEY_LIMIT,
        What::Carried => wording::CARRIED_LIMIT,
        What::Messages => wording::MESSAGE_LIMIT,
    }
}
