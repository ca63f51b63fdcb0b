ghost use Rattle.std.specs.Prelude.{◌↔◌, IsTrue};
ghost use Rattle.std.specs.List.{AllPairs, Any};
ghost use Rattle.bspl_types.specs.Admission.{IsAdmitted};
ghost use Rattle.bspl_types.specs.declared.protocol.Adornment.TheVariants.{Out};
ghost use Rattle.bspl_types.specs.Expansion.{IsAdorned};
ghost use Rattle.enactment_model.specs.Producers.{HasOneProducer, SharesOut};
ghost use Rattle.enactment_model.specs.Safety.{SafeProtocol};

use bspl_types::{Adornment, Expanded, Message};

/// Whether no parameter has two messages that adorn it `out`. An admitted protocol is then safe.
pub fn single_producer(x: &Expanded) -> bool
    ensures exact { IsTrue result ↔ HasOneProducer x.now }
    ensures safe { IsTrue result → IsAdmitted x.now → SafeProtocol x.now }
{
    share_nothing(x.messages.as_slice())
}

/// Whether no message adorns `out` what a later one adorns `out`.
fn share_nothing(messages: &[Message]) -> bool
    ensures { IsTrue result ↔ AllPairs (λ m n. ¬ SharesOut m n) messages.now }
{
    for (i, message) in messages.iter().enumerate() {
        if shares_with_any(message, &messages[i + 1..]) {
            return false;
        }
    }
    true
}

/// Whether one of the others adorns `out` what the message adorns `out`.
fn shares_with_any(message: &Message, others: &[Message]) -> bool
    ensures { IsTrue result ↔ Any (SharesOut message.now) others.now }
{
    others.iter().any(|other| shares_out(message, other))
}

/// Whether both messages adorn some parameter `out`.
pub fn shares_out(message: &Message, other: &Message) -> bool
    ensures { IsTrue result ↔ SharesOut message.now other.now }
{
    let carried = message.carried.as_slice();
    carried.iter().any(|c| c.adornment == Adornment::Out && produces(other, c.param))
}

/// Whether the message adorns the parameter `out`.
pub(crate) fn produces(message: &Message, param: u32) -> bool
    ensures { IsTrue result ↔ IsAdorned message.now Out param }
{
    let carried = message.carried.as_slice();
    carried
        .iter()
        .any(|c| c.param == param && c.adornment == Adornment::Out)
}
