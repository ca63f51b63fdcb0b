use clause_core::Lit;
use order_axioms::KindPair;

/// A literal, and the two kinds of which it says that the first comes before the second, if there
/// are such.
#[derive(Clone, Copy, Debug)]
pub struct OrderLit {
    pub lit: Lit,
    pub pair: Option<KindPair>,
}
