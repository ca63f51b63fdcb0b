ghost use Rattle.std.specs.Prelude.{◌≡◌, ◌↔◌, length, IfOk, IsTrue, OnOk};
ghost use Rattle.std.specs.List.{All};
ghost use Rattle.bspl_types.specs.Admission.{IsAdmitted};
ghost use Rattle.bspl_types.specs.History.{IsRun};
ghost use Rattle.enactment_model.specs.Legal.{IsLegal};
ghost use Rattle.report.specs.ReplayText.{IsLegalText, IsReplayText};
ghost use Rattle.report.specs.inner.KeyLines.{AppendsKeyLines};

use super::keys::reported_keys;
use super::replay_lines::{push_conflict, push_illegal, push_key, push_legal};
use super::status::status_of;
use bspl_types::{Admitted, Event, Expanded, Key};
use enactment_model::BadEvent;
use list_base::{Bytes, NoMemory};
use run_index::{RunIndex, legal};
use std::alloc::Global;

/// What the replay of a run gives.
#[derive(Drop)]
pub struct Replay {
    /// Whether the run is legal.
    pub legal: bool,
    /// The text that reports on the run.
    pub text: Bytes,
}

/// Replays the run: the text names the first event that may not follow those before it; or it names
/// the run's least conflict, and for each key the first thing that its enactment still lacks.
pub fn replay_text(alloc: Global, a: &Admitted, run: &[Event]) -> Result<Replay, NoMemory>
    requires { IsRun a.now run.now }
    ensures text { IfOk result (λ replay. IsReplayText a.now run.now replay.text) }
    ensures legal { IfOk result (λ replay. IsTrue replay.legal ↔ IsLegal a.now run.now) }
{
    let index = RunIndex::of(alloc, run)?;
    replay_along(alloc, a.expanded(), &index)
}

/// The replay of the run along its index.
fn replay_along(alloc: Global, x: &Expanded, index: &RunIndex) -> Result<Replay, NoMemory>
    requires admitted { IsAdmitted x.now }
    requires fits { IsRun x.now index.now }
    ensures text { IfOk result (λ replay. IsReplayText x.now index.now replay.text) }
    ensures legal { IfOk result (λ replay. IsTrue replay.legal ↔ IsLegal x.now index.now) }
{
    let answer = legal(alloc, x, index)?;
    match answer {
        Ok(()) => Ok(Replay {
            legal: true,
            text: legal_text(alloc, x, index)?,
        }),
        Err(BadEvent { place, why }) => {
            let mut text = Bytes::new(alloc);
            push_illegal(&mut text, x, place, why)?;
            Ok(Replay { legal: false, text })
        }
    }
}

/// The text of a legal run.
fn legal_text(alloc: Global, x: &Expanded, index: &RunIndex) -> Result<Bytes, NoMemory>
    requires admitted { IsAdmitted x.now }
    requires fits { IsRun x.now index.now }
    requires legal { IsLegal x.now index.now }
    ensures { IfOk result (IsLegalText x.now index.now) }
{
    let keys = reported_keys(alloc, x, index)?;
    let mut text = Bytes::new(alloc);
    push_legal(&mut text, index.events())?;
    push_conflict(alloc, &mut text, x, index)?;
    push_keys(alloc, &mut text, x, index, keys.as_slice())?;
    Ok(text)
}

/// Appends the line of each key.
fn push_keys(
    alloc: Global,
    text: &mut Bytes,
    x: &Expanded,
    index: &RunIndex,
    keys: &[Key],
) -> Result<(), NoMemory>
    requires fits { IsRun x.now index.now }
    requires lengths { All (λ key. length key ≡ length x.now.keys) keys.now }
    ensures { OnOk result (AppendsKeyLines x.now index.now keys.now text.old text.new) }
{
    for key in keys {
        push_key(text, x, key, status_of(alloc, x, index, key)?)?;
    }
    Ok(())
}
