ghost use Rattle.std.specs.Prelude.{◌≡◌};

use list_base::NoMemory;

/// Why a text is not read. The line is the first bad one, counted from 1.
#[derive(Clone, Copy, Debug, PartialEq, Eq)]
pub enum ScriptRefusal {
    /// The line is none of the table, or breaks a rule.
    Form { line: u64 },
    /// The line has a name that is not declared, or not as it has to be.
    Unknown { line: u64 },
    /// Memory ran out.
    NoMemory,
}

impl From<NoMemory> for ScriptRefusal {
    ghost use Rattle.agent_scripts.specs.declared.refusal.ScriptRefusal.TheVariants as refusals;

    ghost from_gives = { λ _ refusal. refusal ≡ refusals.NoMemory };

    fn from(_error: NoMemory) -> ScriptRefusal {
        ScriptRefusal::NoMemory
    }
}
