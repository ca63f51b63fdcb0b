ghost use Rattle.std.specs.Prelude.{◌≡◌, ℕ, ◌+◌, ◌<◌, List, [], ◌∷◌, ◌++◌, length};
ghost use Rattle.bspl_types.specs.declared.envelope.Envelope.{Envelope};
ghost use Rattle.reorder_net.specs.Gathered.{taken_by, AreGathered, IsTold};
ghost use Rattle.reorder_net.specs.Passes.{ArePasses};

use super::passes::{Gathered, MailPass, RolePasses};
use super::post::Post;
use super::steps::{join, tell};
use agent_scripts::Scene;
use list_base::Seq;
use std::sync::Wait;

impl<N: Scene> Post<N> {
    /// The first role's passes, one to each mailbox: by that to its own it also takes. It takes no
    /// memory.
    pub fn first(&self, passes: RolePasses) -> Gathered
        requires known { 0 < length self.now }
        requires passes { (sent : ℕ → List Envelope) × (taken : List Envelope)
            × ArePasses self.now 0 sent taken passes }
        ensures { (sent : ℕ → List Envelope) (taken : List Envelope) →
            ArePasses self.now 0 sent taken passes →
            AreGathered self.now (λ q. sent q ∷ []) (λ _. taken) 1 result }
    {
        let RolePasses { mut puts, own } = passes;
        join(self.at(0), puts.at_mut(0), own);
        puts
    }

    /// The next role's passes are joined to those of the roles before it. It takes no memory.
    pub fn gather(&self, gathered: &mut Gathered, passes: RolePasses, role: u32)
        requires known { (0 < role) × (role < length self.now) }
        requires gathered { (lists : ℕ → List (List Envelope)) × (taken : ℕ → List Envelope)
            × AreGathered self.now lists taken role gathered.old }
        requires passes { (sent : ℕ → List Envelope) × (mine : List Envelope)
            × ArePasses self.now role sent mine passes }
        ensures { (lists : ℕ → List (List Envelope)) (taken : ℕ → List Envelope)
            (sent : ℕ → List Envelope) (mine : List Envelope) →
            AreGathered self.now lists taken role gathered.old →
            ArePasses self.now role sent mine passes →
            AreGathered self.now (λ q. lists q ++ sent q ∷ []) (taken_by role mine taken) (role + 1)
            gathered.new }
    {
        let RolePasses { puts, own } = passes;
        let q = role as usize;
        join(self.at(q), gathered.at_mut(q), own);
        self.join_puts(gathered, puts)
    }

    /// What the rule tells each mailbox's pass, at one pop more, once all roles are gathered. The
    /// popped envelope is dropped.
    pub fn tell<R: Wait>(&self, rt: &R, mut gathered: Gathered)
        requires { (lists : ℕ → List (List Envelope)) × (taken : ℕ → List Envelope)
            × AreGathered self.now lists taken (length self.now) gathered }
        ensures { (lists : ℕ → List (List Envelope)) (taken : ℕ → List Envelope) →
            AreGathered self.now lists taken (length self.now) gathered →
            (q : ℕ) → q < length self.now → IsTold N.job q (lists q) (taken q) }
    {
        while let Some(pass) = gathered.pop() {
            tell(rt, self.at(gathered.len()), pass);
        }
    }
}

impl<N: Scene> Post<N> {
    ghost use Rattle.reorder_net.specs.inner.Joins.{CanAllTakeIn, HaveTakenIn};

    /// The pass to each mailbox takes in the lists of the other pass to it.
    fn join_puts(&self, gathered: &mut Gathered, mut puts: Seq<MailPass>)
        requires { CanAllTakeIn self.now gathered.old puts }
        ensures { HaveTakenIn 0 gathered.old puts gathered.new }
    {
        while let Some(pass) = puts.pop() {
            let q = puts.len();
            join(self.at(q), gathered.at_mut(q), pass);
        }
    }
}
