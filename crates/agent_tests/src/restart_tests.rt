use super::fixtures::{RELAY, alone, job_of};
use agent_scripts::Job;
use enactment_model::single_producer;
use restart_run::{RestartRefusal, run_restarts, stop_disks};
use std::alloc::Global;
use std::test::Fail;

/// A start syncs the disk and reads the gates of its four places, and each of the role's four
/// events takes four calls.
const CALLS: u64 = 21;

/// How often roles were restarted, if the agents were played over disks that each stop at this call.
fn restarts(alloc: Global, job: &Job, stop: u64, fill: u8) -> Result<Option<u64>, Fail> {
    let x = job.admitted().expanded();
    if stop == 0 || x.roles.len() != 3 || !single_producer(x) {
        return Ok(None);
    }
    let disks = stop_disks(alloc, job, &[stop, stop, stop], fill)?;
    match run_restarts(alloc, job, disks) {
        Ok(played) => Ok(Some(played.restarts)),
        Err(RestartRefusal::DiskFault { .. }) => Ok(None),
        Err(RestartRefusal::NoMemory) => Err("memory ran out".into()),
    }
}

/// Whether so many roles are restarted, whichever byte a restart leaves where nothing was synced.
fn restart(alloc: Global, job: &Job, stop: u64, wanted: u64) -> Result<bool, Fail> {
    for fill in [0, 1, 255] {
        if restarts(alloc, job, stop, fill)? != Some(wanted) {
            return Ok(false);
        }
    }
    Ok(true)
}

/// Whether each role is restarted once where its disk stops, and none if no disk stops.
fn each_stop_restarts(alloc: Global) -> Result<bool, Fail> {
    let jobs = alone(alloc, job_of(alloc, RELAY, b"keys 2\n")?)?;
    for stop in 1..CALLS + 1 {
        if !restart(alloc, jobs.at(0), stop, 3)? {
            return Ok(false);
        }
    }
    restart(alloc, jobs.at(0), CALLS + 1, 0)
}

#[test]
fn each_stop_restarts_each_role_once(rt: HostRuntime) -> Result<(), Fail> {
    assert!(rt; each_stop_restarts(rt.alloc())?);
    Ok(())
}

/// Whether 501 keys, with two events of each role under each, are played over disks without a stop.
fn more_than_a_thousand_events_are_kept(alloc: Global) -> Result<bool, Fail> {
    let jobs = alone(alloc, job_of(alloc, RELAY, b"keys 501\n")?)?;
    Ok(restarts(alloc, jobs.at(0), 1_000_000, 0)? == Some(0))
}

#[test]
fn a_disk_keeps_more_than_a_thousand_events(rt: HostRuntime) -> Result<(), Fail> {
    assert!(rt; more_than_a_thousand_events_are_kept(rt.alloc())?);
    Ok(())
}
