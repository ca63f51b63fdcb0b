ghost use Rattle.std.specs.Prelude.{ℕ, MatchOption};
ghost use Rattle.bspl_types.specs.NamedParts.{IsMessageNamed, IsParamNamed, IsRoleNamed};

use super::expanded::Expanded;
use super::named::index_of;

impl Expanded {
    /// The message that has the name, if one has.
    pub fn message_named(&self, name: &[u8]) -> Option<u32>
        ensures { MatchOption result
            ((m : ℕ) → ¬ IsMessageNamed self.now name.now m) (IsMessageNamed self.now name.now) }
    {
        match index_of(self.messages.as_slice(), name) {
            Some(index) => Some(index as u32),
            None => None,
        }
    }

    /// The role that has the name, if one has.
    pub fn role_named(&self, name: &[u8]) -> Option<u32>
        ensures { MatchOption result
            ((role : ℕ) → ¬ IsRoleNamed self.now name.now role) (IsRoleNamed self.now name.now) }
    {
        match index_of(self.roles.as_slice(), name) {
            Some(index) => Some(index as u32),
            None => None,
        }
    }

    /// The parameter that has the name, if one has.
    pub fn param_named(&self, name: &[u8]) -> Option<u32>
        ensures { MatchOption result
            ((p : ℕ) → ¬ IsParamNamed self.now name.now p) (IsParamNamed self.now name.now) }
    {
        match index_of(self.params.as_slice(), name) {
            Some(index) => Some(index as u32),
            None => None,
        }
    }
}
