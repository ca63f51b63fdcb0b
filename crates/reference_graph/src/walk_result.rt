use list_base::NumberList;

/// What a walk finds.
#[derive(Drop)]
pub enum WalkResult {
    /// The nodes that are reached, each after all that it refers to.
    Order(NumberList),
    /// The node where the first cycle ends.
    Cycle(u32),
}
