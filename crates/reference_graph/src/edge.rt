/// An edge of a graph: its index among the references of a node, and the node that it leads to.
#[derive(Clone, Copy, Debug)]
pub struct Edge {
    pub index: usize,
    pub node: u32,
}
