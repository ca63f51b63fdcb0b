ghost use Rattle.command_line.specs.Line.{OneLine};

/// A law: arguments are one command line at most.
pub fn one_line()
    ensures { OneLine }
{}
