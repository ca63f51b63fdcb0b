ghost use Rattle.run_text.specs.Names.{EventsAreLines, NamesAreFields};
ghost use Rattle.run_text.specs.Refusal.{EventsAreFewerThanBytes, LineHasOneEvent};
ghost use Rattle.run_text.specs.Refusal.{RunIsNotRefused, TextHasOneBadLine, TextHasOneRun};

use bspl_types::spells_once;

/// A law: a text is that of one run of an admitted protocol at most, or refused for one line, and
/// not both; and a line is that of one event at most.
pub fn reads_once()
    ensures runs { TextHasOneRun }
    ensures refusals { TextHasOneBadLine }
    ensures exclusive { RunIsNotRefused }
    ensures events { LineHasOneEvent }
{
    spells_once(); // law: a field spells one value at most
}

/// A law: a run has no more events than its text has bytes.
pub fn events_are_fewer_than_bytes()
    ensures { EventsAreFewerThanBytes }
{}

/// A law: a name has neither a space nor an LF, so it is one field of a line.
pub fn names_are_fields()
    ensures { NamesAreFields }
{}

/// A law: the line of an event has no LF but that at its end, so it is one line.
pub fn events_are_lines()
    ensures { EventsAreLines }
{}
