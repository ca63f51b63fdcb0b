ghost use Rattle.std.specs.Prelude.{◌≡◌, ◌↔◌, IfOk, IfErr, IsOk};
ghost use Rattle.bspl_types.specs.Admission.{IsAdmitted};
ghost use Rattle.protocol_expand.specs.NotAdmitted.{IsNotAdmitted};

use super::message_fault::check_all;
use bspl_types::{Admitted, Expanded, Refusal};

/// Admits an expansion. A refusal drops it, and names the first message in order that is at fault:
/// for its roles, then for a repeated parameter, then for the key (Singh 2011).
#[tactic(auto, using(crate::proofs::KeysExist::keys_exist, crate::proofs::Refused::of_body, crate::proofs::Refused::params_exist))]
pub fn admit(x: Expanded) -> Result<Admitted, Refusal>
    ensures same { IfOk result (λ admitted. admitted ≡ x) }
    ensures exact { IsOk result ↔ IsAdmitted x }
    ensures admitted { IfOk result IsAdmitted }
    ensures refused { IfErr result (IsNotAdmitted x) }
{
    let keys = x.keys.as_slice();
    if keys.is_empty() {
        return Err(Refusal::NoKey);
    }
    check_all(keys, x.params.as_slice(), x.messages.as_slice())?;
    Ok(Admitted::seal(x))
}
