ghost use Rattle.std.specs.Prelude.{IfErr, IfOk};
ghost use Rattle.enactment_model.specs.Safety.{SafeProtocol};
ghost use Rattle.restart_run.specs.Disks.{IsRefused};
ghost use Rattle.restart_run.specs.Restarted.{IsRestarted};
ghost use Rattle.role_journal.specs.Recording.{Suits};
ghost use Rattle.role_journal.specs.Stop.{counts_of};
ghost use Rattle.agent_commands.specs.inner.Restart.{IsPlayedOver};

use agent_scripts::Job;
use bspl_types::{NoMemory, ROLE_LIMIT};
use restart_run::{RestartRefusal, Restarted, run_restarts, stop_disks};
use role_journal::StopDisk;
use std::alloc::Global;
use world_run::World;

/// The calls at which the disks of the roles stop.
const STOPS: [u64; ROLE_LIMIT] = [7, 14, 21, 28, 35, 42, 49, 56];

/// The byte that a restart leaves where nothing was synced.
const FILL: u8 = 255;

/// A world that was played over disks, and how many roles were restarted.
#[derive(Drop)]
pub struct PlayedOver {
    pub world: World,
    pub restarts: u64,
}

/// Plays the job over disks of which each stops once.
pub fn play_over_disks(alloc: Global, job: &Job) -> Result<PlayedOver, NoMemory>
    requires { SafeProtocol job.now.protocol }
    ensures { IfOk result (λ p. IsPlayedOver job.now p.world p.restarts) }
{
    let roles = job.admitted().expanded().roles.len();
    let stops = STOPS;
    let disks = stop_disks(alloc, job, &stops[..roles], FILL)?;
    without_disks(job, run_restarts(alloc, job, disks))
}

/// The world, and how many roles were restarted. A disk that stops never fails after a restart.
fn without_disks(
    _job: &Job,
    played: Result<Restarted<StopDisk>, RestartRefusal>,
) -> Result<PlayedOver, NoMemory>
    requires ok { IfOk played (λ r. IsRestarted (λ d image. Suits d.recording image) counts_of
        _job.now r.world r.restarts r.disks) }
    requires refused { IfErr played
        (IsRefused (λ d image. Suits d.recording image) counts_of _job.now) }
    ensures { IfOk result (λ p. IsPlayedOver _job.now p.world p.restarts) }
{
    match played {
        Ok(
            Restarted {
                world,
                restarts,
                disks,
            },
        ) => {
            drop(disks);
            Ok(PlayedOver { world, restarts })
        }
        Err(RestartRefusal::NoMemory) => Err(NoMemory),
        Err(RestartRefusal::DiskFault { .. }) => unreachable!(),
    }
}
