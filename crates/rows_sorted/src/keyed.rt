//! What a row is found by.

/// A row with its key: two numbers and a text. A row that has fewer parts has 0 or no text in their place.
pub trait Keyed {
    ghost use Rattle.std.specs.Prelude.{◌≡◌};
    ghost use Rattle.rows_sorted.specs.Keys.{Key};

    ghost key: { Self → Key };

    fn first(&self) -> u64
        ensures { result ≡ (key self.now).first };

    fn second(&self) -> u64
        ensures { result ≡ (key self.now).second };

    fn text(&self) -> &[u8]
        ensures { result.now ≡ (key self.now).text };
}
