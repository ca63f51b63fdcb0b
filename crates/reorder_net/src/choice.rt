ghost use Rattle.std.specs.Prelude.{◌≡◌, ◌<◌, ◌%◌};
ghost use Rattle.rand_pcg.specs.Pcg.{pcg32};

use rand_core::utils::NextWord;
use rand_pcg::Pcg32;

/// An index below the length: the generator's next word modulo it.
pub fn pick(rng: &mut Pcg32, len: usize) -> usize
    requires { 0 < len }
    ensures word { result ≡ (pcg32 rng.old).0 % len }
    ensures step { rng.new ≡ (pcg32 rng.old).1 }
    ensures within { result < len }
{
    rng.next_word() as usize % len
}
