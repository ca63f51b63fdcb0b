use bspl_types::{Adornment, Carried, Message, ROLE_LIMIT};

/// For each role a set of parameters, as those that it knows under one key. A parameter is a bit.
/// The limits of a protocol keep its roles below 8 and its parameters below 64, so no remainder that
/// is taken here changes a number.
#[derive(Clone, Copy, Debug)]
pub(crate) struct ParamSets {
    sets: [u64; ROLE_LIMIT],
}

impl ParamSets {
    /// Sets without parameters.
    pub fn new() -> ParamSets {
        ParamSets {
            sets: [0; ROLE_LIMIT],
        }
    }

    /// Whether the role's set has the parameter.
    pub fn has(&self, role: u32, param: u32) -> bool {
        self.sets[role as usize % ROLE_LIMIT] & bit(param as usize) != 0
    }

    /// Puts the parameter into the role's set.
    pub fn add(&mut self, role: u32, param: u32) {
        self.sets[role as usize % ROLE_LIMIT] |= bit(param as usize);
    }

    /// Whether the sender's set has each of the message's `in` parameters.
    pub fn have_ins(&self, message: &Message) -> bool {
        let mut ins = message.carried.as_slice().iter();
        ins.all(|c| c.adornment != Adornment::In || self.has(message.sender, c.param))
    }

    /// Whether the sender's set has each of the message's `in` parameters and none of its others.
    pub fn have_ins_alone(&self, message: &Message) -> bool {
        let mut carried = message.carried.as_slice().iter();
        carried.all(|c| self.has(message.sender, c.param) == (c.adornment == Adornment::In))
    }

    /// Both parties come to know what the message binds.
    pub fn tell(&mut self, message: &Message) {
        for Carried { param, adornment } in message.carried.as_slice() {
            if adornment.has_value() {
                self.add(message.sender, *param);
                self.add(message.receiver, *param);
            }
        }
    }
}

/// The bit of a number below 64.
pub(crate) fn bit(number: usize) -> u64 {
    1 << (number % 64)
}
