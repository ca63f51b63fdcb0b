use bspl_types::Run;
use list_base::Seq;

/// A history for each role, in the order of the roles.
pub type Histories = Seq<Run>;
