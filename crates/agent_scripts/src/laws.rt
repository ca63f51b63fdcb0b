ghost use Rattle.agent_scripts.specs.Laws.{ScriptsFit};

/// A law: a script for a protocol has keys of its length, and each role's order has exactly the
/// messages that the role sends.
pub fn scripts_fit()
    ensures { ScriptsFit }
{}
