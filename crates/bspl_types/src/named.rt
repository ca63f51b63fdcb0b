ghost use Rattle.std.specs.Prelude.{◌≡◌, ◌≢◌, ◌↔◌, IsTrue};
ghost use Rattle.std.specs.List.{All, AllPairs, Any, position};
ghost use Rattle.std.specs.Str.{bytes_eq};
ghost use Rattle.bspl_types.specs.Name.{is_name};
ghost use Rattle.bspl_types.specs.Shape.{AreNamed};

use super::names::is_name;
use super::protocol::{Message, ParamInfo};
use list_base::Seq;

/// What has a name.
pub trait Named {
    ghost use Rattle.std.specs.Prelude.{List, ℕ};

    ghost name: { Self → List ℕ };

    /// The bytes of its name.
    fn name(&self) -> &[u8]
        ensures { result.now ≡ name self.now };
}

impl Named for Seq<u8> {
    ghost name = { λ text. text };

    fn name(&self) -> &[u8] {
        self.as_slice()
    }
}

impl Named for ParamInfo {
    ghost name = { λ p. p.name };

    fn name(&self) -> &[u8] {
        self.name.as_slice()
    }
}

impl Named for Message {
    ghost name = { λ m. m.name };

    fn name(&self) -> &[u8] {
        self.name.as_slice()
    }
}

/// Whether each has a valid name, and the names are distinct.
pub fn are_named<T: Named>(items: &[T]) -> bool
    ensures { IsTrue result ↔ AreNamed T.name items.now }
{
    have_names(items) && have_distinct_names(items)
}

/// The index of the first that has the name.
pub fn index_of<T: Named>(items: &[T], name: &[u8]) -> Option<usize>
    ensures { result ≡ position (λ x. bytes_eq (T.name x) name.now) items.now }
{
    items.iter().position(|x| x.name() == name)
}

/// Whether each has a valid name.
fn have_names<T: Named>(items: &[T]) -> bool
    ensures { IsTrue result ↔ All (λ x. IsTrue (is_name (T.name x))) items.now }
{
    items.iter().all(|x| is_name(x.name()))
}

/// Whether no two have one name.
fn have_distinct_names<T: Named>(items: &[T]) -> bool
    ensures { IsTrue result ↔ AllPairs (λ x y. T.name x ≢ T.name y) items.now }
{
    for (index, item) in items.iter().enumerate() {
        if has_name(&items[..index], item.name()) {
            return false;
        }
    }
    true
}

/// Whether one of them has the name.
fn has_name<T: Named>(items: &[T], name: &[u8]) -> bool
    ensures { IsTrue result ↔ Any (λ x. T.name x ≡ name.now) items.now }
{
    items.iter().any(|x| x.name() == name)
}
