ghost use Rattle.script_text.specs.Laws.{OneRefusal, OneScript, ScriptIsNotRefused};

use bspl_types::spells_once;

/// A law: of an admitted protocol, a text gives one script and plan at most, or is refused for one
/// line.
pub fn reads_once()
    ensures script { OneScript }
    ensures refusal { OneRefusal }
    ensures exclusive { ScriptIsNotRefused }
{
    spells_once(); // law: a field spells one value at most
}
