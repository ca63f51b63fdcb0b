ghost use Rattle.local_store.specs.Reception.{IsArrival, IsReceipt};

use super::act::Kind;
use super::receipt::Receipt;
use super::store::Store;
use bspl_types::Stamped;

impl Store {
    /// Takes a message in. A receipt that is `Fresh` is an event after the clock and after the
    /// message's stamp (Lamport 1978); the other answers change nothing.
    pub fn receive(&mut self, m: &Stamped) -> Receipt
        requires { IsArrival self.old m.now }
        ensures { IsReceipt self.old m.now result self.new }
    {
        let row = self.held_row(&m.instance.key);
        if let Some(differs) = self.difference_at(row, &m.instance) {
            return differs;
        }
        if self.has_event(row, m.instance.message) {
            return Receipt::Repeat;
        }
        let stamp = self.clock().max(m.stamp) + 1;
        self.append(Kind::Received, row, &m.instance, stamp, m.number);
        Receipt::Fresh
    }
}
