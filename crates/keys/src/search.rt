// How many of a lent slice of keys stand before the place of a key.
//
// Rests on the laws of the kind's order alone. Keys that do not ascend give some number up to their length.
ghost use Rattle.std.specs.Prelude.{◌≡◌, ◌≤◌, length};
ghost use Rattle.keys.specs.Sorted.{Ascending, below as keys_below, up_to as keys_up_to};

use crate::key::Key;

// How many of the ascending keys are below q.
pub fn below<K: Key>(keys: &[K], q: &K) -> usize
    ensures within { result ≤ length keys.now }
    ensures value { Ascending K.order keys.now → result ≡ keys_below K.order q.now keys.now }
{
    keys.partition_point(|k| k.compare(q).is_lt())
}

// How many of the ascending keys are at most q.
pub fn up_to<K: Key>(keys: &[K], q: &K) -> usize
    ensures within { result ≤ length keys.now }
    ensures value { Ascending K.order keys.now → result ≡ keys_up_to K.order q.now keys.now }
{
    keys.partition_point(|k| k.compare(q).is_le())
}
