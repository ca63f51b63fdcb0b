ghost use Rattle.agent_scripts.specs.Plan.{IsPlan};

/// What is lost on the way and what is delivered again.
#[derive(Clone, Copy, Debug)]
pub struct Plan {
    /// What the choice of lost messages begins with.
    pub seed: u64,
    /// Of each thousand messages, about how many are lost.
    pub loss: u32,
    /// How many further copies of a message are delivered.
    pub repeat: u32,
    pub ghost limits: { IsPlan loss repeat },
}
