ghost use Rattle.stamped_history.specs.Extended.{EmissionKeepsExplained, ReceiptKeepsExplained};
ghost use Rattle.stamped_history.specs.Laws.{HistoriesMerge, LocalStampsRise};
ghost use Rattle.stamped_history.specs.Laws.{MergedRunsAreOne, StoresAgree};
ghost use Rattle.stamped_history.specs.PlayedLaws.{HistoriesPlay, HistoriesSettle, PlayedGrows};

/// Local histories whose receipts are all explained merge into a legal run, in which each role has
/// its own history (Lamport 1978: an order by logical clocks extends the order of cause and
/// effect).
pub fn histories_merge()
    ensures { HistoriesMerge }
{}

/// Histories merge into one run at most, since no two entries of a role have one stamp.
pub fn merged_runs_are_one()
    ensures { MergedRunsAreOne }
{}

/// What two roles of a safe protocol know of one parameter under one key is one value.
pub fn stores_agree()
    ensures { StoresAgree }
{}

/// The stamps of a local history rise: each is greater than those before it (Lamport 1978).
pub fn local_stamps_rise()
    ensures { LocalStampsRise }
{}

/// One entry more leaves all receipts explained: an emission, or an explained receipt.
pub fn extended_stay_explained()
    ensures emission { EmissionKeepsExplained }
    ensures receipt { ReceiptKeepsExplained }
{}

/// A run is played if each role's history is: what an agent does rests on its own history alone.
pub fn histories_play()
    ensures { HistoriesPlay }
{}

/// Events that are played stay so with one more that is played after them.
pub fn played_grows()
    ensures { PlayedGrows }
{}

/// A run is settled if the roles' histories are.
pub fn histories_settle()
    ensures { HistoriesSettle }
{}
