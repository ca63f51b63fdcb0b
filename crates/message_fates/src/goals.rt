use super::param_sets::{ParamSets, bit};
use bspl_types::{Adornment, Expanded, Message};

/// Which messages a play sends before others. It is advice: `legal` judges the run of a play.
#[derive(Clone, Copy, Debug)]
pub(crate) struct Goals {
    /// The message that the play is to send.
    target: usize,
    /// The messages that may be needed for the target, each as a bit.
    helpful: u64,
    /// The messages without a fate.
    open: u64,
}

impl Goals {
    /// A play that is to send the target, and then what is open.
    pub fn new(x: &Expanded, target: usize, open: u64) -> Goals {
        Goals {
            target,
            helpful: helpful(x, target),
            open,
        }
    }

    /// Whether the message has no fate yet.
    pub fn is_open(&self, message: usize) -> bool {
        self.open & bit(message) != 0
    }

    /// The place of the message in the order of preference. The first is 0.
    pub fn rank(&self, message: usize) -> u32 {
        if message == self.target {
            return 0;
        }
        match (self.helpful & bit(message) != 0, self.is_open(message)) {
            (true, true) => 1,
            (true, false) => 2,
            (false, true) => 3,
            (false, false) => 4,
        }
    }
}

/// The target, and each message that tells the sender of such a message an `in` parameter. Keys are
/// left out, since any message that a role receives tells them.
fn helpful(x: &Expanded, target: usize) -> u64 {
    let mut found = 0;
    let mut needed = ParamSets::new();
    for _ in x.messages.as_slice() {
        let before = found;
        for (index, message) in x.messages.as_slice().iter().enumerate() {
            if found & bit(index) == 0 && (index == target || helps(message, &needed)) {
                found |= bit(index);
                need(x, &mut needed, message);
            }
        }
        if found == before {
            return found;
        }
    }
    found
}

/// Whether one of the message's parties learns by it a parameter that it needs.
fn helps(message: &Message, needed: &ParamSets) -> bool {
    let mut carried = message.carried.as_slice().iter();
    carried.any(|c| match c.adornment {
        Adornment::In => needed.has(message.receiver, c.param),
        Adornment::Out => {
            needed.has(message.sender, c.param) || needed.has(message.receiver, c.param)
        }
        Adornment::Nil => false,
    })
}

/// The message's sender needs the `in` parameters that are no keys.
fn need(x: &Expanded, needed: &mut ParamSets, message: &Message) {
    for c in message.carried.as_slice() {
        if c.adornment == Adornment::In && !x.keys.as_slice().contains(&c.param) {
            needed.add(message.sender, c.param);
        }
    }
}
