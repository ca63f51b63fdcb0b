ghost use Rattle.std.specs.Prelude.{◌<◌, length};
ghost use Rattle.bspl_types.specs.Admission.{IsAdmitted};
ghost use Rattle.bspl_types.specs.History.{instance_of, IsRun};
ghost use Rattle.bspl_types.specs.Instance.{Fits};

use super::finding::Finding;
use bspl_types::{Event, Expanded};

/// A run of an admitted protocol, and what it shows.
#[derive(Drop)]
pub(crate) struct Shown<'r> {
    pub(crate) x: &'r Expanded,
    pub(crate) run: &'r [Event],
    pub(crate) finding: Finding,
    ghost admitted: { ∥ IsAdmitted x.now ∥₁ },
    ghost is_run: { IsRun x.now run.now },
}

/// An event of such a run, and its index from 0.
#[derive(Drop)]
pub(crate) struct ShownEvent<'r> {
    pub(crate) x: &'r Expanded,
    pub(crate) run: &'r [Event],
    pub(crate) finding: Finding,
    pub(crate) index: usize,
    pub(crate) event: &'r Event,
    ghost admitted: { ∥ IsAdmitted x.now ∥₁ },
    ghost is_run: { IsRun x.now run.now },
    ghost within: { index < length run.now },
    ghost fits: { Fits x.now (instance_of event.now) },
}
