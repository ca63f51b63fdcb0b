use bspl_types::Run;

/// The part of a text that has one role's history.
#[derive(Drop)]
pub struct Section {
    pub role: u32,
    pub events: Run,
}
