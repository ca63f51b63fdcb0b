ghost use Rattle.history_audit.specs.Audit.{BadPlaceIsNotExplained, CycleIsNotExplained};
ghost use Rattle.history_audit.specs.TextLaws.{HistoriesAreReadOnce, HistoriesAreRefusedOnce};
ghost use Rattle.history_audit.specs.TextLaws.{ReadHistoriesAreNotRefused};

use enactment_model::legal_by_positions;

/// A law: no run explains histories with a bad place.
pub fn bad_place_is_not_explained()
    ensures { BadPlaceIsNotExplained }
{
    // law: a run is legal exactly if the event at each position may follow those before it
    legal_by_positions();
}

/// A law: no run explains histories with a cycle, since each of its receipts would have to come
/// after the next one (Lamport 1978).
pub fn cycle_is_not_explained()
    ensures { CycleIsNotExplained }
{
    // law: a run is legal exactly if the event at each position may follow those before it
    legal_by_positions();
}

/// A law: a text is that of one list of histories of an admitted protocol at most, or refused for
/// one line, and not both.
pub fn reads_once()
    ensures histories { HistoriesAreReadOnce }
    ensures refusals { HistoriesAreRefusedOnce }
    ensures exclusive { ReadHistoriesAreNotRefused }
{
    run_text::reads_once(); // law: a line is that of one event at most
    run_text::events_are_lines(); // law: it has no LF but that at its end
    run_text::names_are_fields(); // law: nor has a name one
}
