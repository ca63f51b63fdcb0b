ghost use Rattle.std.specs.Prelude.{◌<◌, ◌≤◌, IfSome};

use order_axioms::Order;
use order_propagator::OrderTrail;

/// For each kind its place in an order that keeps what the trail knows of two kinds: kind 1 comes
/// as late as it can, then kind 2, and so on. So each place has, of the kinds that no kind without a
/// place is known to precede, the greatest one. No contract says this: whoever takes the places
/// looks at what they give.
pub fn late_places(order: Order, trail: &OrderTrail) -> [u32; 129] {
    let before = known_before(order, trail);
    let mut unplaced = u128::MAX;
    let mut places = [0; 129];
    for place in 0..order.kinds {
        if let Some(kind) = greatest_free(order, &before, unplaced) {
            places[kind as usize] = place;
            unplaced &= !(1 << (kind - 1));
        }
    }
    places
}

/// For each kind the bits of the kinds that are known to come before it. The bit of kind 1 is the
/// lowest.
fn known_before(order: Order, trail: &OrderTrail) -> [u128; 129] {
    let mut before = [0; 129];
    for i in 1..order.kinds {
        for j in i + 1..order.kinds + 1 {
            match known(trail, order.comes_before(i, j).var) {
                Some(true) => before[j as usize] |= 1 << (i - 1),
                Some(false) => before[i as usize] |= 1 << (j - 1),
                None => {}
            }
        }
    }
    before
}

/// The variable's value, if there is such a variable and it has one.
fn known(trail: &OrderTrail, var: u32) -> Option<bool> {
    if var == 0 || var > trail.vars() {
        return None;
    }
    trail.value(var)
}

/// Of the kinds that are not placed, and that no kind that is not placed comes before, the greatest
/// one.
fn greatest_free(order: Order, before: &[u128; 129], unplaced: u128) -> Option<u32>
    ensures { IfSome result (λ kind. (0 < kind) × (kind ≤ order.kinds)) }
{
    let mut kind = order.kinds;
    while kind > 0 {
        let is_unplaced = unplaced & (1 << (kind - 1)) != 0;
        if is_unplaced && before[kind as usize] & unplaced == 0 {
            return Some(kind);
        }
        kind -= 1;
    }
    None
}
