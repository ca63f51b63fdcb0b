ghost use Rattle.std.specs.Prelude.{◌≡◌, ◌≢◌, ◌<◌, ◌^◌, ◌↔◌, IsTrue, MatchOption};
ghost use Rattle.agent_scripts.specs.declared.statement.Setting.{Setting};
ghost use Rattle.agent_scripts.specs.Table.{setting_word, IsSetting};

use agent_scripts::Setting;

/// The setting whose word this is.
pub(crate) fn setting_named(word: &[u8]) -> Option<Setting>
    ensures { MatchOption result
        ((s : Setting) → word.now ≢ setting_word s) (λ s. word.now ≡ setting_word s) }
{
    if word == b"keys".as_slice() {
        Some(Setting::Keys)
    } else if word == b"seed".as_slice() {
        Some(Setting::Seed)
    } else if word == b"loss".as_slice() {
        Some(Setting::Loss)
    } else if word == b"repeat".as_slice() {
        Some(Setting::Repeat)
    } else {
        None
    }
}

/// Whether the setting can have the number.
pub(crate) fn allows_number(setting: Setting, n: u64) -> bool
    ensures exact { IsTrue result ↔ IsSetting setting n }
    ensures number { n < 2 ^ 64 }
{
    match setting {
        Setting::Keys => 1 <= n && n <= 10_000,
        Setting::Seed => true,
        Setting::Loss => n <= 1000,
        Setting::Repeat => n <= 3,
    }
}
