use super::journal::Journal;
use bspl_io::Trouble;

/// A journal for a stream without one: it keeps nothing, and never fails.
#[derive(Clone, Copy, Debug)]
pub struct NoJournal;

impl Journal for NoJournal {
    ghost use Rattle.std.specs.Prelude.{None, OnErr};

    // What is kept is not known.
    ghost kept = { λ _. None };

    ghost faults = { λ _. 0 };

    fn keep(&mut self, _lines: &[u8]) -> Result<(), Trouble>
        ensures never_fails { OnErr result ⊥ }
    {
        Ok(())
    }
}
