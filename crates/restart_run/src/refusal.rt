use list_base::NoMemory;

/// Why a job was not played over its disks.
#[derive(Clone, Copy, Debug, PartialEq, Eq)]
pub enum RestartRefusal {
    /// The role's disk failed once more after the role was restarted.
    DiskFault { role: u32 },
    /// Memory ran out.
    NoMemory,
}

impl From<NoMemory> for RestartRefusal {
    ghost use Rattle.std.specs.Prelude.{◌≡◌};
    ghost use Rattle.restart_run.specs.declared.refusal.RestartRefusal.TheVariants as refusals;

    ghost from_gives = { λ _ refusal. refusal ≡ refusals.NoMemory };

    fn from(_error: NoMemory) -> RestartRefusal {
        RestartRefusal::NoMemory
    }
}
