// An entry of a node.
ghost use Rattle.std.specs.Prelude.{◌≡◌};

// One entry of a node: of a leaf a key and its handle, above that a child with its weight and smallest key.
#[derive(Clone, Copy)]
pub struct Entry<K> {
    pub weight: u64,
    pub key: K,
    pub child: u64,
}

impl<K> Entry<K> {
    // The entry of the child in a block: what it weighs, and its smallest key.
    pub fn of_child(weight: u64, key: K, block: u32) -> Entry<K>
        ensures weight { result.weight ≡ weight }
        ensures key { result.key ≡ key }
        ensures child { result.child ≡ block }
    {
        Entry {
            weight,
            key,
            child: u64::from(block),
        }
    }
}
