use enactment_model::Why;
use list_base::{NoMemory, Seq};

/// A place of a role's history, from 1.
#[derive(Clone, Copy, Debug)]
pub struct Point {
    pub role: u32,
    pub place: usize,
}

/// Points, in order.
pub type PointList = Seq<Point>;

/// Why the histories are not explained.
#[derive(Drop)]
pub enum AuditNo {
    /// The first bad place of the first role that has one: bad in its own history, or a receipt of
    /// what was never sent.
    Bad { role: u32, place: usize, why: Why },
    /// These receipts wait for one another in a circle, from the lowest role on.
    Cycle(PointList),
    /// Memory ran out.
    NoMemory,
}

impl From<NoMemory> for AuditNo {
    ghost use Rattle.std.specs.Prelude.{◌≡◌};
    ghost use Rattle.history_audit.specs.declared.audit_no.AuditNo.TheVariants as answers;

    ghost from_gives = { λ _ no. no ≡ answers.NoMemory };

    fn from(_error: NoMemory) -> AuditNo {
        AuditNo::NoMemory
    }
}
