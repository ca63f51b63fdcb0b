ghost use Rattle.protocol_names.specs.Laws.{FaultsHaveCauses, NamesFindProtocols};

/// A law: a protocol is found by the first index of its name.
pub fn names_find_protocols()
    ensures { NamesFindProtocols }
{}

/// A law: what has no cause of a fault has no fault.
pub fn faults_have_causes()
    ensures { FaultsHaveCauses }
{}
