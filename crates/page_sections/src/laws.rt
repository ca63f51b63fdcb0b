ghost use Rattle.page_sections.specs.Laws.{ReportsAreShown, RulesAreShownTruly};

/// A law: the section of a run has the report on it, as words.
pub fn reports_are_shown()
    ensures { ReportsAreShown }
{}

/// A law: what the section of the rules says of each of them is true of the protocol.
pub fn rules_are_shown_truly()
    ensures { RulesAreShownTruly }
{}
