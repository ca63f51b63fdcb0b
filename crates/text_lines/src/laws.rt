ghost use Rattle.text_lines.specs.Decimal.{NumeralsAreDecimals, NumeralsDiffer};

/// Up to 64 bits, a numeral is what the standard library writes of the number.
pub fn numerals_are_decimals()
    ensures { NumeralsAreDecimals }
{}

/// Two numbers have two numerals.
pub fn numerals_differ()
    ensures { NumeralsDiffer }
{}
