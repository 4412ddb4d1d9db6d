// The pair of a key, and the last pair at or below one.
ghost use Rattle.store.specs.Calls.{Leaves};
ghost use Rattle.plain.specs.Plain.{floor as plain_floor, find as plain_find};
ghost use Rattle.held.specs.Held.{kind};
ghost use Rattle.held.specs.Roots.{Asks};
ghost use Rattle.ask.specs.Leaf.{Reaches};

use balance::down::way_down;
use keys::key::Key;
use nodes::node::Node;
use nodes::read::{entry_child, entry_key};
use nodes::search::keys_up_to;
use plain::pair::Pair;
use store::blocks::Store;
use store::fault::Fault;

// The clauses spell the kind of key out: a member of the trait `Key` could not name what a crate above it defines.

// The leaf that a key belongs to.
fn leaf_of<K: Key, S: Store>(store: &mut S, root: Node, key: &K) -> Result<u32, Fault>
    ensures { Leaves S.meaning S.ready (Reaches (kind K.width K.order K.packed K.unpacked) root key.now) store.old result store.new }
{
    let mut node = root;
    while node.level > 0 {
        node = way_down(store, node, key)?.child;
    }
    Ok(node.block)
}

// The pair with the largest key at most `key`.
pub fn floor<K: Key, S: Store>(store: &mut S, root: Node, key: &K) -> Result<Option<Pair<K>>, Fault>
    ensures { Leaves S.meaning S.ready (Asks (kind K.width K.order K.packed K.unpacked) root (plain_floor K.order key.now)) store.old result store.new }
{
    let leaf = leaf_of(store, root, key)?;
    let Some(last) = keys_up_to(store, leaf, key)?.checked_sub(1) else {
        return Ok(None);
    };
    let found = entry_key(store, leaf, last)?;
    let handle = entry_child::<K, S>(store, leaf, last)?;
    Ok(Some(Pair { key: found, handle }))
}

// The handle of a key.
pub fn find<K: Key, S: Store>(store: &mut S, root: Node, key: &K) -> Result<Option<u64>, Fault>
    ensures { Leaves S.meaning S.ready (Asks (kind K.width K.order K.packed K.unpacked) root (plain_find K.order key.now)) store.old result store.new }
{
    Ok(
        floor(store, root, key)?
            .filter(|pair| pair.key.compare(key).is_eq())
            .map(|pair| pair.handle),
    )
}
