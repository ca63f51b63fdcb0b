use super::goals::Goals;
use super::param_sets::{ParamSets, bit};
use bspl_types::{Expanded, Message};
use list_base::{NoMemory, NumberList, Seq};
use std::alloc::Global;

/// Messages that can be sent one after another under one key, if each is received at once, until none
/// can: each time the one that the goals prefer.
pub(crate) fn play(alloc: Global, x: &Expanded, goals: &Goals) -> Result<NumberList, NoMemory> {
    let mut known = ParamSets::new();
    let mut sent = 0;
    let mut order = Seq::new(alloc);
    for _ in x.messages.as_slice() {
        let Some((index, message)) = next_message(x, &known, sent, goals) else {
            return Ok(order);
        };
        known.tell(message);
        sent |= bit(index as usize);
        order.push(index)?;
    }
    Ok(order)
}

/// The message that the goals prefer among those that were not sent and can be. Of several, it is
/// the first.
fn next_message<'x>(
    x: &'x Expanded,
    known: &ParamSets,
    sent: u64,
    goals: &Goals,
) -> Option<(u32, &'x Message)> {
    let mut best = None;
    let mut least = u32::MAX;
    for (index, message) in x.messages.as_slice().iter().enumerate() {
        let rank = goals.rank(index);
        if sent & bit(index) == 0 && rank < least && known.have_ins_alone(message) {
            least = rank;
            best = Some((index as u32, message));
        }
    }
    best
}
