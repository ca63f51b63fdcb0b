ghost use Rattle.std.specs.Prelude.{◌≡◌, refl};
ghost use Rattle.std.specs.Cmp.{partial_equiv_from_equiv, eq_by_cmp_equiv};
ghost use Rattle.std.specs.Cmp.{partial_order_from_total};
ghost use Rattle.std.specs.Ordering.{as_partial_cmp, eq_by_cmp};
ghost use Rattle.key_table.specs.KeyOrder.{key_cmp, key_cmp_total};

use super::order::compare_all;
use bspl_types::Key;
use std::cmp::Ordering;
use std::marker::Model;

/// A key with an order, by which a map finds it. Contracts see the values.
#[derive(Clone, Copy, Debug)]
pub struct SortedKey {
    key: Key,
}

impl Model for SortedKey {
    ghost use Rattle.std.specs.Prelude.{List};
    ghost use Rattle.bspl_types.specs.declared.value.Value.{Value as SpecValue};

    ghost Value = { List SpecValue };

    ghost view = { λ k. k.key };

    ghost inverse = { λ values. record { key = values } };
}

impl SortedKey {
    /// The key, which has its order from now on.
    pub fn of(key: &Key) -> SortedKey
        ensures { result ≡ key.now }
    {
        SortedKey { key: *key }
    }
}

impl PartialEq for SortedKey {
    ghost eq = { eq_by_cmp key_cmp };

    ghost laws = { partial_equiv_from_equiv (eq_by_cmp_equiv key_cmp_total) };

    fn eq(&self, other: &SortedKey) -> bool {
        self.cmp(other).is_eq()
    }
}

impl Eq for SortedKey {
    ghost laws = { eq_by_cmp_equiv key_cmp_total };
}

impl Ord for SortedKey {
    ghost cmp = { key_cmp };

    ghost total = { key_cmp_total };

    ghost matches_partial_cmp = { λ k l. refl };

    ghost matches_eq = { λ k l. refl };

    fn cmp(&self, other: &SortedKey) -> Ordering {
        compare_all(self.key.as_slice(), other.key.as_slice())
    }
}

impl PartialOrd for SortedKey {
    ghost partial_cmp = { as_partial_cmp key_cmp };

    ghost laws = { partial_order_from_total key_cmp_total };

    fn partial_cmp(&self, other: &SortedKey) -> Option<Ordering> {
        Some(self.cmp(other))
    }
}
