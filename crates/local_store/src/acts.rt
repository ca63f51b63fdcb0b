ghost use Rattle.std.specs.Prelude.{◌≡◌, ◌-◌, ◌+◌, ◌<◌, ◌≤◌, ◌++◌, [], ◌∷◌, length, max, slice_get};
ghost use Rattle.std.specs.Prelude.{Some, OnOk, OnErr};

use super::act::Act;
use list_base::NoMemory;
use std::alloc::Global;
use std::marker::Model;

/// The acts in order, with room for more of them.
#[derive(Drop)]
pub struct Acts {
    acts: Vec<Act>,
    spare: u32,
}

impl Model for Acts {
    ghost use Rattle.std.specs.Prelude.{◌+◌, ◌≤◌, length, vec_len, vec_capacity};
    ghost use Rattle.local_store.specs.inner.Acts.{ActsState};

    ghost Value = { ActsState };

    ghost view = { λ a. record { acts = a.acts.items; spare = a.spare } };

    ghost invariant = { λ a. (vec_len a.acts + a.spare ≤ vec_capacity a.acts) ×
        (vec_len a.acts + a.spare ≤ 4294967295) };
}

impl Acts {
    /// No act, and no room.
    pub fn new(alloc: Global) -> Acts
        ensures { result ≡ record { acts = []; spare = 0 } }
    {
        Acts {
            acts: Vec::new(alloc),
            spare: 0,
        }
    }

    /// How many there are.
    pub fn len(&self) -> u32
        ensures count { result ≡ length self.now.acts }
        ensures few { length self.now.acts + self.now.spare ≤ 4294967295 }
    {
        self.acts.len() as u32
    }

    /// How many more fit without memory.
    pub fn spare(&self) -> u32
        ensures { result ≡ self.now.spare }
    {
        self.spare
    }

    /// The act at the index, from 0.
    pub fn at(&self, i: u32) -> Act
        requires { i < length self.now.acts }
        ensures { slice_get self.now.acts i ≡ Some result }
    {
        self.acts[i as usize]
    }

    /// Makes room for this many, unless there is more.
    pub fn reserve(&mut self, more: u32) -> Result<(), NoMemory>
        requires { length self.old.acts + more ≤ 4294967295 }
        ensures ok { OnOk result (self.new ≡ record self.old { spare = max self.old.spare more }) }
        ensures err { OnErr result (self.new ≡ self.old) }
    {
        if more > self.spare {
            self.acts.reserve(more as usize)?;
            self.spare = more;
        }
        Ok(())
    }

    /// Puts an act at the end.
    pub fn push(&mut self, act: Act)
        requires { 0 < self.old.spare }
        ensures { self.new ≡
            record self.old { acts = self.old.acts ++ act ∷ []; spare = self.old.spare - 1 } }
    {
        self.acts.push_reserved(act);
        self.spare -= 1;
    }
}
