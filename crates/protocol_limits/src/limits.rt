ghost use Rattle.std.specs.Prelude.{◌≡◌, Some, None, slice_get, map, MatchResult};
ghost use Rattle.std.specs.List.{find};
ghost use Rattle.std.specs.Option.{option_map_or};
ghost use Rattle.reference_graph.specs.PathCounts.{saturated};
ghost use Rattle.protocol_limits.specs.Counts.{first_oversized};
ghost use Rattle.protocol_limits.specs.Limits.{is_over, limit, limits, saturated_limit};
ghost use Rattle.protocol_limits.specs.Survey.{IsLimitError};
ghost use Rattle.protocol_limits.specs.inner.PathTotals.{AreChecked, ArePathTotals, NamesFirstOver};

use super::bounds::{DEPTH_LIMIT, PROTOCOL_LIMIT};
use super::counts::{at_top, key_count};
use super::limit::Limit;
use super::outcome::LimitError;
use super::oversized::first_oversized;
use super::path_totals::{PathTotals, path_totals};
use super::sorted_document::SortedDocument;
use bspl_parser::Declaration;
use bspl_types::{CARRIED_LIMIT, KEY_LIMIT, MESSAGE_LIMIT, PARAM_LIMIT, ROLE_LIMIT, What};

/// Counts what has a limit, and reports the first count over its limit.
pub(crate) fn check_limits(
    document: &SortedDocument,
    top: &Declaration,
) -> Result<PathTotals, LimitError>
    requires top { slice_get document.now.protocols document.now.top ≡ Some top.now }
    ensures { MatchResult result (AreChecked document.now)
        (IsLimitError document.now.protocols document.now.top) }
{
    let totals = path_totals(document)?;
    let oversized = first_oversized(document)?;
    let limits = limits_of(document, top, &totals, oversized);
    check_each(&limits)?;
    Ok(totals)
}

/// The limits, in the order in which they are judged. A count is at most the last number of 64
/// bits.
fn limits_of(
    document: &SortedDocument,
    top: &Declaration,
    totals: &PathTotals,
    oversized: Option<u64>,
) -> [Limit; 7]
    requires top { slice_get document.now.protocols document.now.top ≡ Some top.now }
    requires totals { ArePathTotals document.now totals.now }
    requires oversized { oversized ≡
        first_oversized document.now.protocols document.now.top }
    ensures { result ≡
        map saturated_limit (limits document.now.protocols document.now.top) }
{
    let privates = at_top(document, totals.privates.as_slice());
    let params = privates.saturating_add(top.public.len() as u64);
    let messages = at_top(document, totals.messages.as_slice());
    [
        limit(
            What::Protocols,
            document.table.protocols.len() as u64,
            PROTOCOL_LIMIT,
        ),
        limit(What::Depth, totals.depth, DEPTH_LIMIT),
        limit(What::Roles, top.roles.len() as u64, ROLE_LIMIT),
        limit(What::Parameters, params, PARAM_LIMIT),
        limit(What::Keys, key_count(top) as u64, KEY_LIMIT),
        limit(What::Carried, or_zero(oversized), CARRIED_LIMIT),
        limit(What::Messages, messages, MESSAGE_LIMIT),
    ]
}

/// The limit on what is counted.
fn limit(what: What, count: u64, most: usize) -> Limit
    ensures { result ≡ limit what (saturated count) most }
{
    Limit {
        what,
        count,
        most: most as u64,
    }
}

/// The number, or 0 if there is none.
fn or_zero(count: Option<u64>) -> u64
    ensures { result ≡ option_map_or (λ n. n) count 0 }
{
    match count {
        Some(count) => count,
        None => 0,
    }
}

/// Reports the first count over its limit.
fn check_each(limits: &[Limit]) -> Result<(), LimitError>
    ensures { MatchResult result (λ _. find is_over limits.now ≡ None)
        (NamesFirstOver limits.now) }
{
    for limit in limits {
        if limit.count > limit.most {
            return Err(LimitError::TooMany {
                what: limit.what,
                count: limit.count,
            });
        }
    }
    Ok(())
}
