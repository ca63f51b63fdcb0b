ghost use Rattle.message_fates.specs.inner.Reach.{EnactableIsReached};

use enactment_model::known_exactly_if_some_event_binds;

/// A law: what a legal run emits is reached. Of the first emission of a message that is not, the
/// sender would know an `in` parameter that no message before told it.
pub(crate) fn enactable_is_reached()
    ensures { EnactableIsReached }
{
    // laws: what a role knows has an event that binds it, and a history is a run
    known_exactly_if_some_event_binds();
}
