ghost use Rattle.std.specs.Prelude.{◌≡◌, ◌<◌};
ghost use Rattle.clause_encoding.specs.Variables.{received, sent};

/// The kind of the message's emission.
pub fn sent(m: u32) -> u32
    requires { m < 64 }
    ensures { result ≡ sent m }
{
    2 * m + 1
}

/// The kind of the message's reception.
pub fn received(m: u32) -> u32
    requires { m < 64 }
    ensures { result ≡ received m }
{
    2 * m + 2
}
