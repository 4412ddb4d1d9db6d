// What a kind of key is.
ghost use Rattle.std.specs.Prelude.{◌≡◌, ℕ, List, slice_index};
ghost use Rattle.std.specs.declared.cmp.Ordering.{Ordering};
ghost use Rattle.keys.specs.Orders.{Orderly, Packing};

use std::cmp::Ordering;

// A total order, in which equal keys are the same, and a packing into a constant number of words. The order is a comparison
// of the kind's own and no `Ord`: a type's `Ord` may be another order, or there may be none.
pub trait Key: Copy {
    // how many words a key takes
    ghost width: { ℕ };

    // what comparing two keys answers
    ghost order: { Self → Self → Ordering };

    // the words of a key, and the key of words
    ghost packed: { Self → List ℕ };

    ghost unpacked: { List ℕ → Self };

    // How many words a key takes.
    // a function and no constant: callers and other kinds go by this name, and a constant beside it would say it twice
    fn words() -> u32
        ensures { result ≡ width };

    // Less, equal or greater.
    fn compare(&self, other: &Self) -> Ordering
        ensures { result ≡ order self.now other.now };

    // Word i of the key, 0 past its width.
    fn word(&self, i: u32) -> u64
        ensures { result ≡ slice_index (packed self.now) i };

    // The key of these words; a word that is wanting counts as 0.
    fn from_words(words: &[u64]) -> Self
        ensures { result ≡ unpacked words.now };

    ghost ordered: { Orderly order };

    ghost packing: { Packing width packed unpacked };
}
