ghost use Rattle.std.specs.Prelude.{[], ◌∷◌, All, Some};
ghost use Rattle.std.specs.List.{flat_map, join_with_byte};
ghost use Rattle.std.specs.Option.{option_copied};
ghost use Rattle.refutation_log.specs.LogText.{link_fields, step_fields};
ghost use Rattle.refutation_log.specs.NumberRange.{LinkInRange, StepInRange};
ghost use Rattle.refutation_log.specs.LineParts.{IsReading};
ghost use Rattle.list_base.specs.Numeral.{numeral};
ghost use Rattle.list_base.specs.Lines.{parts_in};

use super::line_error::LineError;
use super::numbers::{number_of, pivot_of};
use super::refutation::{Chain, Link, LinkList};
use list_base::Seq;
use std::alloc::Global;
use text_lines::split_once;

/// The step that the line spells.
pub fn step_of(alloc: Global, line: &[u8]) -> Result<Chain, LineError>
    ensures { IsReading (λ step. join_with_byte 32 (step_fields step))
        StepInRange line.now result }
{
    let (name, fields) = split_once(line, b' ');
    if name != b"step".as_slice() {
        return Err(LineError::Form);
    }
    match fields {
        None => Err(LineError::Form),
        Some(fields) => chain_of(alloc, fields),
    }
}

/// The step with these fields after its name. A bad number is reported only if the rest has its
/// form.
fn chain_of(alloc: Global, fields: &[u8]) -> Result<Chain, LineError>
    ensures { IsReading (λ step. numeral step.first ∷ flat_map link_fields step.links)
        StepInRange (parts_in 32 (Some fields.now)) result }
{
    let (first, links) = split_once(fields, b' ');
    match number_of(first) {
        Ok(first) => Ok(Chain {
            first,
            links: links_of(alloc, links)?,
        }),
        Err(LineError::Number) => {
            links_of(alloc, links)?;
            Err(LineError::Number)
        }
        Err(error) => Err(error),
    }
}

/// The links with these fields. A bad number does not end the search for a bad form.
fn links_of(alloc: Global, fields: Option<&[u8]>) -> Result<LinkList, LineError>
    ensures { IsReading (flat_map link_fields) (All LinkInRange)
        (parts_in 32 (option_copied fields.entry)) result }
{
    let mut links = Seq::new(alloc);
    let mut in_range = true;
    let mut left = fields;
    while let Some(pairs) = left {
        let (pivot, after) = split_once(pairs, b' ');
        let Some(after) = after else {
            return Err(LineError::Form);
        };
        let (clause, rest) = split_once(after, b' ');
        match link_of(pivot, clause) {
            Ok(link) => links.push(link)?,
            Err(LineError::Number) => in_range = false,
            Err(error) => return Err(error),
        }
        left = rest;
    }
    if in_range {
        Ok(links)
    } else {
        Err(LineError::Number)
    }
}

/// The link of a pivot and the number of a clause.
fn link_of(pivot: &[u8], clause: &[u8]) -> Result<Link, LineError>
    ensures { IsReading link_fields LinkInRange (pivot.now ∷ clause.now ∷ []) result }
{
    match pivot_of(pivot) {
        Ok(pivot) => Ok(Link {
            pivot,
            clause: number_of(clause)?,
        }),
        Err(LineError::Number) => {
            number_of(clause)?;
            Err(LineError::Number)
        }
        Err(error) => Err(error),
    }
}
