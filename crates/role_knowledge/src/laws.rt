ghost use Rattle.role_knowledge.specs.Laws.{BlocksAreOne, FirstKnownIsOne};

/// A law: the parameters of an admitted protocol's message are distinct, so one value is the first
/// that is known, and one block is the first.
pub fn answers_once()
    ensures values { FirstKnownIsOne }
    ensures blocks { BlocksAreOne }
{}
