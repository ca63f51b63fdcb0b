ghost use Rattle.std.specs.Prelude.{◌≡◌};
ghost use Rattle.protocol_names.specs.inner.IndexMap.{number_of, number_to_base};

/// How many bytes of a name count in its number.
const COUNTED: usize = 16;

/// A number that hardly any other name has. Names with a long prefix in common differ in their last
/// bytes, so these count.
pub(crate) fn name_number(name: &[u8]) -> u64
    ensures { result ≡ number_of name.now }
{
    number_to_base(&name[name.len().saturating_sub(COUNTED)..])
}

/// The number of all the bytes. They are subtracted, so that of two short names the later one has
/// the lower number: a search in an ordered map goes from low to high, and ends early for a name
/// that comes after the others.
fn number_to_base(bytes: &[u8]) -> u64
    ensures { result ≡ number_to_base bytes.now }
{
    let mut number = 0u64;
    for byte in bytes {
        number = number.wrapping_mul(257).wrapping_sub(u64::from(*byte));
    }
    number
}
