//! What each step does to what passes know, in the queue's words. It stands in proofs alone.

use super::hold::Hold;
use super::parcel::Parcel;
use agent_scripts::Scene;
use crossbeam_queue::protocol::{Join, Lesson, Outcome, Split};
use std::marker::{Brand, PhantomData};

/// What names a role.
pub trait Home {
    ghost use Rattle.std.specs.Prelude.{ℕ};

    ghost role: { ℕ };
}

/// A call that names a role passes `Brand`.
impl Home for Brand {
    ghost role = { 0 };
}

/// All lists go to a new pass, which is of the mailbox of the role that `Z` names.
pub struct Naming<Z: Home> {
    of: PhantomData<Z>,
}

impl<Z: Home> Split<Hold> for Naming<Z> {
    ghost use Rattle.reorder_net.specs.inner.Moves.{named, spent};

    ghost left = { λ v. spent };

    ghost right = { named Z.role };
}

/// The first of the senders' lists goes to a new pass.
pub struct Dealing;

impl Split<Hold> for Dealing {
    ghost use Rattle.reorder_net.specs.inner.Moves.{deal, dealt};

    ghost left = { dealt };

    ghost right = { deal };
}

/// What was taken goes to a new pass.
pub struct Leaving;

impl Split<Hold> for Leaving {
    ghost use Rattle.reorder_net.specs.Hold.{taker};
    ghost use Rattle.reorder_net.specs.inner.Moves.{untaken};

    ghost left = { untaken };

    ghost right = { λ v. taker v.home v.taken };
}

/// The lists of one pass go to another.
pub struct Joining;

impl Join<Hold> for Joining {
    ghost use Rattle.reorder_net.specs.inner.Moves.{joined, spent};

    ghost both = { joined };

    ghost spent = { spent };
}

/// A sender puts an envelope.
pub struct Puts;

impl Outcome<Parcel, Hold> for Puts {
    ghost use Rattle.reorder_net.specs.inner.Moves.{HasPut};

    ghost then = { HasPut };
}

/// The role takes an envelope.
pub struct Takes<N: Scene> {
    of: PhantomData<N>,
}

impl<N: Scene> Outcome<Parcel, Hold> for Takes<N> {
    ghost use Rattle.reorder_net.specs.inner.Moves.{HasTaken};

    ghost then = { HasTaken N.job };
}

impl<N: Scene> Lesson<Parcel, Hold> for Takes<N> {
    ghost use Rattle.std.specs.Prelude.{⊤};

    ghost fact = { λ v items. ⊤ };
}

/// What the rule says of a pass that has all lists.
pub struct Tells<N: Scene> {
    of: PhantomData<N>,
}

impl<N: Scene> Outcome<Parcel, Hold> for Tells<N> {
    ghost use Rattle.reorder_net.specs.inner.Moves.{IsToldTo};

    ghost then = { λ v x w. IsToldTo N.job v };
}

impl<N: Scene> Lesson<Parcel, Hold> for Tells<N> {
    ghost use Rattle.reorder_net.specs.inner.Moves.{IsToldTo};

    ghost fact = { λ v items. IsToldTo N.job v };
}
