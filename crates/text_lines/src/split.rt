ghost use Rattle.std.specs.Prelude.{◌≡◌, ◌≢◌, ◌==◌, ◌∷◌, ◌++◌, All, MatchOption};
ghost use Rattle.std.specs.List.{slice_split};
ghost use Rattle.std.specs.Option.{option_copied};
ghost use Rattle.list_base.specs.Lines.{parts_in};

/// The bytes before the first separator, and those after it if it is there.
pub fn split_once(bytes: &[u8], separator: u8) -> (&[u8], Option<&[u8]>)
    ensures first { All (λ byte. byte ≢ separator) result.0.now }
    ensures whole { MatchOption result.1
        (bytes.now ≡ result.0.now)
        (λ rest. bytes.now ≡ result.0.now ++ separator ∷ rest.now) }
    ensures parts { slice_split (λ byte. byte == separator) bytes.now
        ≡ result.0.now ∷ parts_in separator (option_copied result.1) }
{
    for (index, byte) in bytes.iter().enumerate() {
        if *byte == separator {
            return (&bytes[..index], Some(&bytes[index + 1..]));
        }
    }
    (bytes, None)
}
