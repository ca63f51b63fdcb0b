ghost use Rattle.local_store.specs.Laws.{EmissionStaysLocal, ReceiptStaysLocal};

use role_knowledge::answers_once;

/// With what it can emit, or with a fresh receipt, a store's history stays local.
pub fn next_stays_local()
    ensures emission { EmissionStaysLocal }
    ensures receipt { ReceiptStaysLocal }
{
    // law: an event makes one value of a parameter known
    answers_once();
}
