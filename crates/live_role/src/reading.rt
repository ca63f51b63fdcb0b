ghost use Rattle.std.specs.Prelude.{◌≡◌, IfErr, IfOk, IsErrOf, MatchOption};
ghost use Rattle.bspl_io.specs.Faults.{HasCounted};
ghost use Rattle.live_role.specs.Opening.{EndsUnopened, TakesOpening};
ghost use Rattle.live_role.specs.inner.Opening.{StopsUnopened};

use super::opening::Opening;
use bspl_io::{ReadRefusal, Source};
use list_base::Bytes;
use std::alloc::Global;
use tool_input::INPUT_LIMIT;

/// The most bytes that one read asks for.
const PIECE: usize = 4096;

/// The text before the line `%% wire`, and the bytes after it that were taken with it.
#[derive(Drop)]
pub struct Opened {
    pub text: Bytes,
    pub ahead: Bytes,
}

/// Reads up to the line `%% wire`. Without it the input has ended.
pub fn read_opening<R: Source>(alloc: Global, input: &mut R) -> Result<Option<Opened>, ReadRefusal>
    ensures ok { IfOk result (λ found. MatchOption found
        (EndsUnopened (R.remaining input.old) (R.remaining input.new))
        (λ o. TakesOpening o.text o.ahead (R.remaining input.old) (R.remaining input.new))) }
    ensures err { IfErr result
        (StopsUnopened (R.remaining input.old) (R.remaining input.new)) }
    ensures counted { IsErrOf result ReadRefusal.ReadFault →
        HasCounted (R.faults input.old) (R.faults input.new) }
    ensures still { ¬ IsErrOf result ReadRefusal.ReadFault →
        R.faults input.new ≡ R.faults input.old }
{
    let mut opening = Opening::new(alloc);
    let mut taken = 0;
    let mut piece = [0u8; PIECE];
    'pieces: loop {
        let count = input.read(&mut piece)?;
        if count == 0 {
            return Ok(None);
        }
        if count as u64 > INPUT_LIMIT - taken {
            return Err(ReadRefusal::TooLong);
        }
        taken += count as u64;
        let came = &piece[..count];
        if let Some(at) = opening.take(alloc, came)? {
            let ahead = Bytes::from_slice(alloc, &came[at..])?;
            return Ok(Some(Opened {
                text: opening.text,
                ahead,
            }));
        }
    }
}
