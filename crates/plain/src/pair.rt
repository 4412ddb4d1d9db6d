// A key and its handle.
#[derive(Clone, Copy)]
pub struct Pair<K> {
    pub key: K,
    pub handle: u64,
}
