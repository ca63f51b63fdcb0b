ghost use Rattle.std.specs.Prelude.{◌≡◌, IfOk};
ghost use Rattle.bspl_types.specs.Admission.{IsAdmitted};

use super::expanded::Expanded;
use list_base::{NoMemory, TryClone};
use std::marker::Model;

/// A protocol that was admitted. Contracts see its expansion.
#[derive(Drop)]
pub struct Admitted {
    expanded: Expanded,
}

impl Model for Admitted {
    ghost use Rattle.bspl_types.specs.declared.expanded.Expanded.{Expanded as SpecExpanded};
    ghost use Rattle.bspl_types.specs.Admission.{IsAdmitted};

    ghost Value = { SpecExpanded };

    ghost view = { λ a. a.expanded };

    ghost invariant = { λ a. IsAdmitted a.expanded };
}

impl Admitted {
    /// Admits the expansion. `protocol_expand::admit` tests what this requires.
    pub fn seal(expanded: Expanded) -> Admitted
        requires { IsAdmitted expanded }
        ensures { result ≡ expanded }
    {
        Admitted { expanded }
    }

    /// What was admitted.
    pub fn expanded(&self) -> &Expanded
        ensures same { result.now ≡ self.now }
        ensures admitted { IsAdmitted self.now }
    {
        &self.expanded
    }

    /// A law: what was sealed is admitted.
    pub fn is_admitted(&self)
        ensures { IsAdmitted self.now }
    {
        let _admitted = &self.expanded;
    }

    /// An equal value with memory of its own.
    pub fn copy(&self) -> Result<Admitted, NoMemory>
        ensures { IfOk result (λ other. other ≡ self.now) }
    {
        Ok(Admitted {
            expanded: self.expanded.try_clone()?,
        })
    }
}
