ghost use Rattle.enactment_model.specs.Examples.{NothingIsNotLive, PingIsSafeAndLive};
ghost use Rattle.enactment_model.specs.Examples.{PingComesToRest, RivalsDisagree, TwinIsNotSafe};

use bspl_types::equal_values_are_one;

/// Some admitted protocol is safe and live: Ping, whose one message produces its one parameter.
pub fn ping_is_safe_and_live()
    ensures { PingIsSafeAndLive }
{
    // law: lists of values that the test finds equal are one list
    equal_values_are_one();
}

/// A run comes to rest at a key when its messages are emitted and received, and not before.
pub fn ping_comes_to_rest()
    ensures { PingComesToRest }
{
    // law: lists of values that the test finds equal are one list
    equal_values_are_one();
}

/// Not every admitted protocol is safe: in Twin both roles can produce the key.
pub fn twin_is_not_safe()
    ensures { TwinIsNotSafe }
{}

/// Not every legal run agrees: in Rivals each role can produce a value of its own.
pub fn rivals_disagree()
    ensures { RivalsDisagree }
{}

/// Not every admitted protocol is live: Nothing has no message, and so never binds its key.
pub fn nothing_is_not_live()
    ensures { NothingIsNotLive }
{}
