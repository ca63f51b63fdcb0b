/// What becomes a member of an object: it has a name, and what stands under it.
pub(crate) trait Member {
    ghost use Rattle.std.specs.Prelude.{◌≡◌, List, ℕ};
    ghost use Rattle.serde_json.specs.Data.{Data};

    // The bytes of its name.
    ghost name: { Self → List ℕ };

    // What stands under the name.
    ghost content: { Self → Data };

    /// Lends the bytes of its name.
    fn name(&self) -> &[u8]
        ensures { result.now ≡ name self.now };
}
