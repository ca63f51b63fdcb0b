ghost use Rattle.bspl_types.specs.NamedParts.{OneMessageOfAName, OneParamOfAName, OneRoleOfAName};
ghost use Rattle.bspl_types.specs.ValueSpelling.{ValuesAreSpelledOnce};
ghost use Rattle.bspl_types.specs.Value.{SameValuesAreOne, EqualValuesAreOne};

/// A law: values of one spelling are equal, so a value that was written is read back.
pub fn spells_once()
    ensures { ValuesAreSpelledOnce }
{}

/// A law: `==` of values, of keys and of lists of values is equality.
pub fn equal_values_are_one()
    ensures values { SameValuesAreOne }
    ensures lists { EqualValuesAreOne }
{}

/// A law: a name is that of one message at most.
pub fn messages_are_named_once()
    ensures { OneMessageOfAName }
{}

/// A law: a name is that of one role at most.
pub fn roles_are_named_once()
    ensures { OneRoleOfAName }
{}

/// A law: a name is that of one parameter at most.
pub fn params_are_named_once()
    ensures { OneParamOfAName }
{}
