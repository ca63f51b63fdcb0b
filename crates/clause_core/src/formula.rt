ghost use Rattle.std.specs.Prelude.{◌≡◌, ◌↔◌, All, IsSome, IfSome};
ghost use Rattle.clause_core.specs.Clause.{VariablesExist};

use super::clause::ClauseList;

/// Clauses over the variables from 1 to `vars`, all of which have to hold.
#[derive(Drop)]
pub struct Formula {
    pub vars: u32,
    pub clauses: ClauseList,
    pub ghost variables_exist: { All (VariablesExist vars) clauses },
}

impl Formula {
    /// The formula of these clauses, unless one of them has another variable.
    pub fn of(vars: u32, clauses: ClauseList) -> Option<Formula>
        ensures exact { IsSome result ↔ All (VariablesExist vars) clauses }
        ensures same { IfSome result (λ f. (f.vars ≡ vars) × (f.clauses ≡ clauses)) }
    {
        if clauses.as_slice().iter().all(|c| c.is_over(vars)) {
            Some(Formula { vars, clauses })
        } else {
            None
        }
    }
}
