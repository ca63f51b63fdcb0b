ghost use Rattle.std.specs.Prelude.{◌≡◌};
ghost use Rattle.protocol_check.specs.Check.{property_of};

use bspl_types::Property;
use refutation_log::Kind;

/// The property that an accepted log of the kind proves.
pub fn property_of(kind: Kind) -> Property
    ensures { result ≡ property_of kind }
{
    match kind {
        Kind::Safety => Property::Safety,
        Kind::Liveness => Property::Liveness,
    }
}
