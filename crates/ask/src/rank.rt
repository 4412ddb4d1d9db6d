// How many keys stand before a bound: what the children on the way weigh, and the keys of the leaf.
ghost use Rattle.std.specs.Prelude.{◌*◌, ◌^◌, ◌≤◌, IfOk};
ghost use Rattle.store.specs.Calls.{Leaves};
ghost use Rattle.copies.specs.Work.{Work};
ghost use Rattle.nodes.specs.Places.{form};
ghost use Rattle.plain.specs.Plain.{rank as plain_rank, up_to as plain_up_to};
ghost use Rattle.held.specs.Held.{kind};
ghost use Rattle.held.specs.Roots.{Asks};
ghost use Rattle.ask.specs.Ranks.{passing, Begun, Passed, CountsLeaf};

use balance::cut::weigh;
use balance::down::way_down;
use keys::key::Key;
use nodes::node::Node;
use nodes::read::entry_key;
use nodes::search::keys_up_to;
use store::blocks::Store;
use store::fault::Fault;

// What the first n entries of a node weigh.
fn weight_before<K: Key, S: Store>(store: &mut S, node: Node, n: u32) -> Result<u64, Fault>
    requires within { n ≤ 80 }
    ensures bound { IfOk result (λ w. w ≤ 80 * 2 ^ 40) }
    ensures sums { Leaves S.meaning S.ready (Work (Begun (form K.width) node.block node.level n) (Passed (form K.width) node.block node.level n)) store.old result store.new }
{
    let mut all: u64 = 0;
    for i in 0..n {
        let weight = weigh::<K, S>(store, node, i)?;
        all += weight;
    }
    Ok(all)
}

// How many keys of a leaf are below `key`, or at most `key` where an equal one counts.
pub(crate) fn leaf_keys_before<K: Key, S: Store>(
    store: &mut S,
    block: u32,
    key: &K,
    equal: bool,
) -> Result<u32, Fault>
    ensures within { IfOk result (λ n. n ≤ 80) }
    ensures counts { Leaves S.meaning S.ready (CountsLeaf (kind K.width K.order K.packed K.unpacked) block (passing K.order equal key.now)) store.old result store.new }
{
    let upto = keys_up_to(store, block, key)?;
    if equal || upto == 0 {
        return Ok(upto);
    }
    let last: K = entry_key(store, block, upto - 1)?;
    Ok(upto - u32::from(last.compare(key).is_eq()))
}

// The same of all keys below a node.
fn keys_before<K: Key, S: Store>(
    store: &mut S,
    node: Node,
    key: &K,
    equal: bool,
) -> Result<u64, Fault>
    ensures { Leaves S.meaning S.ready (Asks (kind K.width K.order K.packed K.unpacked) node (passing K.order equal key.now)) store.old result store.new }
{
    if node.level == 0 {
        return Ok(u64::from(leaf_keys_before(store, node.block, key, equal)?));
    }
    let way = way_down(store, node, key)?;
    let passed = weight_before::<K, S>(store, node, way.place)?;
    let below = keys_before(store, way.child, key, equal)?;
    Ok(passed.saturating_add(below))
}

// How many keys are below `key`.
pub fn rank<K: Key, S: Store>(store: &mut S, root: Node, key: &K) -> Result<u64, Fault>
    ensures { Leaves S.meaning S.ready (Asks (kind K.width K.order K.packed K.unpacked) root (plain_rank K.order key.now)) store.old result store.new }
{
    keys_before(store, root, key, false)
}

// How many keys are at most `key`.
pub fn up_to<K: Key, S: Store>(store: &mut S, root: Node, key: &K) -> Result<u64, Fault>
    ensures { Leaves S.meaning S.ready (Asks (kind K.width K.order K.packed K.unpacked) root (plain_up_to K.order key.now)) store.old result store.new }
{
    keys_before(store, root, key, true)
}
