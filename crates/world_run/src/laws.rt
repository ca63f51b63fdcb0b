ghost use Rattle.world_run.specs.FinishedTable.{FinishedStoresAgree, LiveKeysAreBound};
ghost use Rattle.world_run.specs.Laws.{KeptDesksMerge};
ghost use Rattle.world_run.specs.Told.{ToldHistoriesExplain};
ghost use Rattle.world_run.specs.inner.Ending.{IdleDesksFinish};

use adapter::{is_orderly, taken_envelopes_explain};
use agent_scripts::{Job, scripts_fit};
use stamped_history::{
    histories_merge, histories_play, histories_settle, local_stamps_rise, merged_runs_are_one,
    stores_agree,
};

/// A law: kept desks whose receipts are all explained have local histories, which merge into a
/// legal run that the agents play.
pub fn kept_desks_merge()
    ensures { KeptDesksMerge }
{
    // law: the stamps of a local history rise
    local_stamps_rise();
    // law: local histories whose receipts are explained merge into a legal run
    histories_merge();
    // law: a run is played if each role's history is
    histories_play();
    // law: an order has messages alone that its role sends
    scripts_fit();
}

/// A law: sound desks at which nothing is undelivered and no agent has anything to do are finished.
pub(crate) fn idle_desks_finish(job: &Job)
    ensures { IdleDesksFinish job.now }
{
    // law: a job's script is one for its protocol, and its keys are distinct
    is_orderly(job);
    // law: kept desks merge into a played run
    kept_desks_merge();
    // law: a run is settled if the roles' histories are
    histories_settle();
    // law: an order has all messages that its role sends
    scripts_fit();
}

/// A law: what any store of a finished world of a safe protocol knows of a parameter under a key is
/// the value that the table has. So all stores agree.
pub fn finished_stores_agree()
    ensures { FinishedStoresAgree }
{
    // law: what two roles of a safe protocol know of a parameter is one value
    stores_agree();
}

/// A law: in a finished world of a live protocol, the run is quiet at each workload key at whose
/// number nothing is lost or declined, and the table has all its public values.
pub fn live_keys_are_bound()
    ensures { LiveKeysAreBound }
{
    // law: histories merge into one run at most
    merged_runs_are_one();
}

/// A law: what the rules of all mailboxes say explains all receipts.
pub fn told_histories_explain()
    ensures { ToldHistoriesExplain }
{
    // law: a taken envelope that its sender posted explains the receipt
    taken_envelopes_explain();
}
