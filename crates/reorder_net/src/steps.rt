//! Each kind of step at a mailbox. The mailbox's rule refuses a wrong one.

ghost use Rattle.std.specs.Prelude.{◌≡◌, ◌<◌, length, true, IfOk, MatchResult, MatchOption};
ghost use Rattle.reorder_net.specs.Hold.{taker};
ghost use Rattle.reorder_net.specs.Mail.{IsPosted};
ghost use Rattle.reorder_net.specs.Pass.{IsSender};
ghost use Rattle.reorder_net.specs.inner.Joins.{with_lists, CanTakeIn};
ghost use Rattle.reorder_net.specs.inner.Moves.{deal, dealt, first_hold, named, untaken};
ghost use Rattle.reorder_net.specs.inner.Moves.{HasPut, HasTaken, IsGathered, IsToldTo};

use super::mailbox::{MailQueue, Mailbox};
use super::moves::{Dealing, Home, Joining, Leaving, Naming, Puts, Takes, Tells};
use super::parcel::Parcel;
use super::passes::MailPass;
use agent_scripts::Scene;
use std::alloc::{AllocError, Global};
use std::marker::Brand;
use std::sync::Wait;

/// A mailbox of the role, and the one pass, which has all its lists.
pub(crate) fn open<N: Scene>(alloc: Global, home: u32) -> Result<(Mailbox<N>, MailPass), AllocError>
    ensures pass { IfOk result (λ r. r.1.box ≡ r.0) }
    ensures view { IfOk result (λ r. r.1.hold ≡ named home first_hold) }
{
    let (mailbox, mut first) = begin::<N>(alloc)?;
    let pass = name::<N, Brand>(&mailbox, &mut first, home);
    Ok((mailbox, pass))
}

/// A mailbox of no role yet.
fn begin<N: Scene>(alloc: Global) -> Result<(Mailbox<N>, MailPass), AllocError>
    ensures pass { IfOk result (λ r. r.1.box ≡ r.0) }
    ensures view { IfOk result (λ r. r.1.hold ≡ first_hold) }
{
    let (queue, seat) = MailQueue::<N>::with_rule(alloc)?;
    Ok((Mailbox { queue }, MailPass { seat }))
}

/// The first pass leaves all to a new one, which is of the role's mailbox. The role is an argument
/// so that the call can name it.
fn name<N: Scene, Z: Home>(mailbox: &Mailbox<N>, first: &mut MailPass, home: u32) -> MailPass
    requires pass { first.old.box ≡ mailbox.now }
    requires view { first.old.hold ≡ first_hold }
    requires home { Z.role ≡ home }
    ensures pass { result.box ≡ mailbox.now }
    ensures view { result.hold ≡ named home first_hold }
{
    let _role = home;
    MailPass {
        seat: mailbox.queue.another::<Naming<Z>>(&mut first.seat),
    }
}

/// The first sender's list leaves the pass for one of its own.
pub(crate) fn part<N: Scene>(mailbox: &Mailbox<N>, pass: &mut MailPass) -> MailPass
    requires pass { pass.old.box ≡ mailbox.now }
    requires some { 0 < length pass.old.hold.puts }
    ensures boxes { (pass.new.box ≡ mailbox.now) × (result.box ≡ mailbox.now) }
    ensures left { pass.new.hold ≡ dealt pass.old.hold }
    ensures right { result.hold ≡ deal pass.old.hold }
{
    MailPass {
        seat: mailbox.queue.another::<Dealing>(&mut pass.seat),
    }
}

/// What was taken leaves the pass for one of its own.
pub(crate) fn leave<N: Scene>(mailbox: &Mailbox<N>, pass: &mut MailPass) -> MailPass
    requires pass { pass.old.box ≡ mailbox.now }
    requires takes { pass.old.hold.takes ≡ true }
    ensures boxes { (pass.new.box ≡ mailbox.now) × (result.box ≡ mailbox.now) }
    ensures left { pass.new.hold ≡ untaken pass.old.hold }
    ensures right { result.hold ≡ taker pass.old.hold.home pass.old.hold.taken }
{
    MailPass {
        seat: mailbox.queue.another::<Leaving>(&mut pass.seat),
    }
}

/// The lists of the other pass come to this one.
pub(crate) fn join<N: Scene>(mailbox: &Mailbox<N>, pass: &mut MailPass, other: MailPass)
    requires { CanTakeIn mailbox.now pass.old other }
    ensures { pass.new ≡ with_lists pass.old other }
{
    let MailPass { seat } = other;
    mailbox.queue.absorb::<Joining>(&mut pass.seat, seat)
}

/// The envelope goes to the back. An error puts nothing.
pub(crate) fn put<N: Scene, R: Wait>(
    rt: &R,
    mailbox: &Mailbox<N>,
    pass: &mut MailPass,
    e: Parcel,
) -> Result<(), Parcel>
    requires pass { pass.old.box ≡ mailbox.now }
    requires view { IsSender e.to e.from pass.old }
    requires posted { IsPosted N.job e.from e.to e }
    ensures pass { pass.new.box ≡ mailbox.now }
    ensures view { MatchResult result
        (λ _. HasPut pass.old.hold e pass.new.hold)
        (λ _. pass.new ≡ pass.old) }
{
    mailbox.queue.push_as::<Puts, R>(rt, &mut pass.seat, e)
}

/// The parcel at the front leaves the mailbox, if that holds any.
pub(crate) fn take<N: Scene, R: Wait>(
    rt: &R,
    mailbox: &Mailbox<N>,
    pass: &mut MailPass,
) -> Option<Parcel>
    requires pass { pass.old.box ≡ mailbox.now }
    requires takes { pass.old.hold.takes ≡ true }
    ensures pass { pass.new.box ≡ mailbox.now }
    ensures view { MatchOption result
        (pass.new ≡ pass.old)
        (λ e. HasTaken N.job pass.old.hold e pass.new.hold) }
{
    mailbox.queue.pop_as::<Takes<N>, R>(rt, &mut pass.seat)
}

/// What the rule tells a pass with all lists, at one pop more. The popped envelope is dropped.
pub(crate) fn tell<N: Scene, R: Wait>(rt: &R, mailbox: &Mailbox<N>, mut pass: MailPass)
    requires pass { pass.box ≡ mailbox.now }
    requires gathered { IsGathered pass.hold }
    ensures { IsToldTo N.job pass.hold }
{
    mailbox.queue.pop_as::<Tells<N>, R>(rt, &mut pass.seat);
}
