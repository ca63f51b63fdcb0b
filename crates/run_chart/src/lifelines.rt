ghost use Rattle.std.specs.Prelude.{◌≡◌, ◌≤◌, ◌++◌, length, OnOk};
ghost use Rattle.std.specs.List.{enumerate_from, flat_map};
ghost use Rattle.bspl_types.specs.Limits.{role_limit};
ghost use Rattle.html.specs.Fragment.{as_html};
ghost use Rattle.run_chart.specs.Frame.{described, lifeline};

use super::place::column;
use super::wording::{DESCRIBED_ROLE, LIFELINE};
use super::words::{cut, ellipsis};
use bspl_types::Name;
use html::{Fragment, fill};
use list_base::{Bytes, NoMemory};

/// Appends the lifeline of each role, down to the height.
#[tactic(auto, using(html::proofs::IndexLemmas::enumerate_more, html::proofs::IndexLemmas::enumerate_all))]
pub(crate) fn push_lifelines(text: &mut Bytes, roles: &[Name], end: u64) -> Result<(), NoMemory>
    requires { length roles.now ≤ role_limit }
    ensures { OnOk result (text.new ≡ text.old ++
        as_html (flat_map (lifeline end) (enumerate_from 0 roles.now))) }
{
    for (role, name) in roles.iter().enumerate() {
        push_lifeline(text, role as u32, name.as_slice(), end)?;
    }
    Ok(())
}

/// Appends the lifeline of a role.
fn push_lifeline(text: &mut Bytes, role: u32, name: &[u8], end: u64) -> Result<(), NoMemory>
    ensures { OnOk result (text.new ≡ text.old ++ as_html (lifeline end (role, name.now))) }
{
    fill(
        text,
        LIFELINE,
        &[
            Fragment::Number(column(role)),
            Fragment::Number(end),
            Fragment::Number(column(role)),
            Fragment::Words(cut(20, name)),
            Fragment::Tag(ellipsis(20, name)),
        ],
    )
}

/// Appends the names of the roles.
#[tactic(auto, using(html::proofs::WritingLemmas::written_next))]
pub(crate) fn push_described(text: &mut Bytes, roles: &[Name]) -> Result<(), NoMemory>
    ensures { OnOk result (text.new ≡ text.old ++ as_html (flat_map described roles.now)) }
{
    for name in roles {
        fill(text, DESCRIBED_ROLE, &[Fragment::Words(name.as_slice())])?;
    }
    Ok(())
}
