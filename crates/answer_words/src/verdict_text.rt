ghost use Rattle.std.specs.Prelude.{IfOk};
ghost use Rattle.answer_words.specs.VerdictText.{AreRightVerdicts, IsVerdictWords};

use super::liveness::push_liveness;
use super::safety::push_safety;
use bspl_types::Admitted;
use list_base::{Bytes, NoMemory};
use std::alloc::Global;
use verdict::Verdicts;

/// Right verdicts in words: what is wrong, why, and what to do.
pub fn verdict_words(alloc: Global, a: &Admitted, v: &Verdicts) -> Result<Bytes, NoMemory>
    requires { AreRightVerdicts a.now v.now }
    ensures { IfOk result (IsVerdictWords a.now v.now) }
{
    // law: what was admitted is admitted
    a.is_admitted();
    let x = a.expanded();
    let mut text = Bytes::new(alloc);
    push_safety(&mut text, x, &v.safety)?;
    push_liveness(alloc, &mut text, x, &v.liveness)?;
    Ok(text)
}
