ghost use Rattle.std.specs.Prelude.{◌≡◌, MatchOption};
ghost use Rattle.agent_commands.specs.StageCount.{IsStageCount};

use std::marker::Model;

/// How many stages a generated protocol has. Contracts see the number.
#[derive(Clone, Copy, Debug, PartialEq, Eq)]
pub struct StageCount {
    stages: u32,
}

impl Model for StageCount {
    ghost use Rattle.std.specs.Prelude.{ℕ};
    ghost use Rattle.agent_commands.specs.StageCount.{IsStageCount};

    ghost Value = { ℕ };

    ghost view = { λ a. a.stages };

    ghost invariant = { λ a. IsStageCount a.stages };

    ghost inverse = { λ n. record { stages = n } };
}

impl StageCount {
    /// The count, if a protocol of so many stages can be generated.
    pub fn of(stages: u32) -> Option<StageCount>
        ensures { MatchOption result (¬ IsStageCount stages) (λ count. count ≡ stages) }
    {
        if stages >= 1 && stages <= 16 {
            Some(StageCount { stages })
        } else {
            None
        }
    }

    /// The number of stages.
    pub fn stages(self) -> u32
        ensures same { result ≡ self }
        ensures allowed { IsStageCount result }
    {
        self.stages
    }
}
