ghost use Rattle.std.specs.Prelude.{◌≡◌};
ghost use Rattle.std.specs.List.{All};
ghost use Rattle.agent_scripts.specs.StatedScript.{is_setting, setting_of, IsGivenPlan};
ghost use Rattle.agent_scripts.specs.ScriptText.{statements_of};
ghost use Rattle.agent_scripts.specs.Table.{IsSetting};
ghost use Rattle.script_text.specs.Reading.{HasNumbers};

use agent_scripts::{Plan, Setting, Stated, Statement};

/// The plan of the settings. Each is 0 unless it is set.
pub(crate) fn plan_of(stated: &[Stated]) -> Plan
    requires { All HasNumbers (statements_of stated.now) }
    ensures { IsGivenPlan (statements_of stated.now) result }
{
    let seed = set_number(stated, Setting::Seed, 0);
    let loss = set_number(stated, Setting::Loss, 0);
    let repeat = set_number(stated, Setting::Repeat, 0);
    Plan {
        seed,
        loss: loss as u32,
        repeat: repeat as u32,
    }
}

/// The number of a setting, or its default.
pub(crate) fn set_number(stated: &[Stated], setting: Setting, default: u64) -> u64
    requires numbers { All HasNumbers (statements_of stated.now) }
    requires default { IsSetting setting default }
    ensures number { result ≡ setting_of (statements_of stated.now) setting default }
    ensures within { IsSetting setting result }
{
    for s in stated {
        if let Statement::Set(other, number) = &s.statement {
            if is_same(setting, *other) {
                return *number;
            }
        }
    }
    default
}

/// Whether both are the same setting.
fn is_same(setting: Setting, other: Setting) -> bool
    ensures { result ≡ is_setting setting other }
{
    setting == other
}
