use list_base::NoMemory;
use std::alloc::Global;

/// A set of variables that is emptied in one step. The cell of a variable has the round in which it
/// was put in last. A variable past the cells is never in.
#[derive(Drop)]
pub struct VarMarks {
    rounds: Vec<u32>,
    round: u32,
}

impl VarMarks {
    /// No variable yet.
    pub fn new(alloc: Global, vars: u32) -> Result<VarMarks, NoMemory> {
        Ok(VarMarks {
            rounds: vec![in alloc; 0; vars as usize + 1]?,
            round: 1,
        })
    }

    /// Takes all variables out.
    pub fn clear(&mut self) {
        self.round = self.round.saturating_add(1);
    }

    /// Whether the variable is in.
    pub fn has(&self, var: u32) -> bool {
        match self.rounds.get(var as usize) {
            Some(round) => *round == self.round,
            None => false,
        }
    }

    /// Puts the variable in.
    pub fn add(&mut self, var: u32) {
        if let Some(cell) = self.rounds.get_mut(var as usize) {
            *cell = self.round;
        }
    }
}
