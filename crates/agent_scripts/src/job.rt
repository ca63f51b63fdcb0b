ghost use Rattle.std.specs.Prelude.{◌≡◌};
ghost use Rattle.agent_scripts.specs.Refusal.{IsScriptFor};

use super::plan::Plan;
use super::script::Script;
use bspl_types::Admitted;
use std::marker::{Brand, Model};

/// What a text says of the agents.
#[derive(Drop)]
pub struct Agents {
    pub script: Script,
    pub plan: Plan,
}

/// A protocol, and agents whose script is one for it. Contracts see both.
#[derive(Drop)]
pub struct Job {
    admitted: Admitted,
    agents: Agents,
}

impl Model for Job {
    ghost use Rattle.agent_scripts.specs.Job.{Job as SpecJob};
    ghost use Rattle.agent_scripts.specs.Refusal.{IsScriptFor};

    ghost Value = { SpecJob };

    ghost view = { λ a. record {
      protocol = a.admitted;
      script = a.agents.script;
      plan = a.agents.plan;
    } };

    ghost invariant = { λ a. IsScriptFor a.admitted a.agents.script };
}

impl Job {
    /// The job of agents whose script is one for the protocol.
    pub fn of(admitted: Admitted, agents: Agents) -> Job
        requires { IsScriptFor admitted agents.script }
        ensures { result ≡ record {
          protocol = admitted;
          script = agents.script;
          plan = agents.plan;
        } }
    {
        Job { admitted, agents }
    }

    /// The protocol.
    pub fn admitted(&self) -> &Admitted
        ensures { result.now ≡ self.now.protocol }
    {
        &self.admitted
    }

    /// What the agents do.
    pub fn script(&self) -> &Script
        ensures same { result.now ≡ self.now.script }
        ensures fits { IsScriptFor self.now.protocol self.now.script }
    {
        &self.agents.script
    }

    /// What is lost and what is repeated.
    pub fn plan(&self) -> &Plan
        ensures { result.now ≡ self.now.plan }
    {
        &self.agents.plan
    }
}

/// What names a job: a type with a parameter `N: Scene` belongs to the job that `N` names.
pub trait Scene {
    ghost use Rattle.agent_scripts.specs.Job.{Job as SpecJob};

    ghost job: { SpecJob };
}

/// A call that names a job passes `Brand`. If the call names none, it is a job without messages.
impl Scene for Brand {
    ghost use Rattle.agent_scripts.specs.inner.NoJob.{no_job};

    ghost job = { no_job };
}
