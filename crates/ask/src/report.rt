// The pairs of an interval, written into lent keys and lent handles.
ghost use Rattle.std.specs.Prelude.{◌≡◌, ◌≢◌, ◌<◌, ◌≤◌, Err, IfErr, length};
ghost use Rattle.store.specs.Calls.{Leaves};
ghost use Rattle.store.specs.declared.fault.Refusal.TheVariants.{Uneven};
ghost use Rattle.plain.specs.Plain.{within as plain_within};
ghost use Rattle.balance.specs.Updates.{own_refusal};
ghost use Rattle.held.specs.Held.{kind};
ghost use Rattle.held.specs.Roots.{Asks, Rooted};
ghost use Rattle.ask.specs.Reports.{Reports};
ghost use Rattle.ask.specs.Writes.{lent, Stored, StoredAt, pairs_after, pairs_at, pairs_from, Writes};

use crate::rank::{leaf_keys_before, rank, up_to};
use balance::down::way_down;
use balance::update::refuse;
use keys::key::Key;
use nodes::node::Node;
use nodes::read::{child_block, count, entry_child, entry_key};
use store::blocks::Store;
use store::fault::{Fault, Refusal};

// Why a report stopped, and how many of the first places have their pairs.
#[derive(Clone, Copy, PartialEq, Eq, Debug)]
pub struct Stopped {
    pub fault: Fault,
    pub written: usize,
}

impl From<Fault> for Stopped {
    ghost from_gives = { λ f s. (s.fault ≡ f) × (s.written ≡ 0) };

    fn from(fault: Fault) -> Stopped {
        Stopped { fault, written: 0 }
    }
}

// Writes the pair of entry i of a leaf into the next place.
fn write_pair<K: Key, S: Store>(
    store: &mut S,
    block: u32,
    i: u32,
    keys: &mut [K],
    handles: &mut [u64],
    written: &mut usize,
) -> Result<(), Fault>
    requires entry { i < 80 }
    requires place { written.old < length keys.old }
    requires even { length handles.old ≡ length keys.old }
    ensures within { written.new ≤ length keys.old }
    ensures writes { Leaves S.meaning S.ready (Writes (StoredAt (kind K.width K.order K.packed K.unpacked) 0 block i) (pairs_at (kind K.width K.order K.packed K.unpacked) 0 block i) (lent keys.old handles.old written.old) (lent keys.new handles.new written.new)) store.old result store.new }
{
    let key: K = entry_key(store, block, i)?;
    let handle = entry_child::<K, S>(store, block, i)?;
    keys[*written] = key;
    handles[*written] = handle;
    *written += 1;
    Ok(())
}

// Writes the pairs of entry i of a node, as many as there is room for.
#[cycle(entries)]
fn write_entry<K: Key, S: Store>(
    store: &mut S,
    node: Node,
    i: u32,
    keys: &mut [K],
    handles: &mut [u64],
    written: &mut usize,
) -> Result<(), Fault>
    requires entry { i < 80 }
    requires place { written.old < length keys.old }
    requires even { length handles.old ≡ length keys.old }
    ensures within { written.new ≤ length keys.old }
    ensures writes { Leaves S.meaning S.ready (Writes (StoredAt (kind K.width K.order K.packed K.unpacked) node.level node.block i) (pairs_at (kind K.width K.order K.packed K.unpacked) node.level node.block i) (lent keys.old handles.old written.old) (lent keys.new handles.new written.new)) store.old result store.new }
{
    if node.level == 0 {
        return write_pair(store, node.block, i, keys, handles, written);
    }
    let child = Node {
        block: child_block::<K, S>(store, node.block, i)?,
        level: node.level - 1,
    };
    write_entries(store, child, 0, keys, handles, written)
}

// Writes the pairs of a node's entries from place `from` on.
#[cycle(entries)]
fn write_entries<K: Key, S: Store>(
    store: &mut S,
    node: Node,
    from: u32,
    keys: &mut [K],
    handles: &mut [u64],
    written: &mut usize,
) -> Result<(), Fault>
    requires place { written.old ≤ length keys.old }
    requires even { length handles.old ≡ length keys.old }
    ensures within { written.new ≤ length keys.old }
    ensures writes { Leaves S.meaning S.ready (Writes (Stored (kind K.width K.order K.packed K.unpacked) node.level node.block) (pairs_after (kind K.width K.order K.packed K.unpacked) node.level node.block from) (lent keys.old handles.old written.old) (lent keys.new handles.new written.new)) store.old result store.new }
{
    if *written == keys.len() {
        return Ok(());
    }
    let n = count(store, node.block)?;
    for i in from..n {
        if *written == keys.len() {
            return Ok(());
        }
        write_entry(store, node, i, keys, handles, written)?;
    }
    Ok(())
}

// Writes the pairs below a node with keys from `low` on.
fn write_from<K: Key, S: Store>(
    store: &mut S,
    node: Node,
    low: &K,
    keys: &mut [K],
    handles: &mut [u64],
    written: &mut usize,
) -> Result<(), Fault>
    requires place { written.old ≤ length keys.old }
    requires even { length handles.old ≡ length keys.old }
    ensures within { written.new ≤ length keys.old }
    ensures writes { Leaves S.meaning S.ready (Writes (Rooted (kind K.width K.order K.packed K.unpacked) node) (pairs_from (kind K.width K.order K.packed K.unpacked) node low.now) (lent keys.old handles.old written.old) (lent keys.new handles.new written.new)) store.old result store.new }
{
    if *written == keys.len() {
        return Ok(());
    }
    if node.level == 0 {
        let from = leaf_keys_before(store, node.block, low, false)?;
        return write_entries(store, node, from, keys, handles, written);
    }
    let way = way_down(store, node, low)?;
    write_from(store, way.child, low, keys, handles, written)?;
    write_entries(store, node, way.place + 1, keys, handles, written)
}

// How many keys stand from `low` to `high`.
fn count_within<K: Key, S: Store>(
    store: &mut S,
    root: Node,
    low: &K,
    high: &K,
) -> Result<u64, Fault>
    ensures { Leaves S.meaning S.ready (Asks (kind K.width K.order K.packed K.unpacked) root (λ ps. length (plain_within K.order low.now high.now ps))) store.old result store.new }
{
    if low.compare(high).is_gt() {
        return Ok(0);
    }
    let below = rank(store, root, low)?;
    Ok(up_to(store, root, high)?.saturating_sub(below))
}

// Writes the pairs from `low` to `high`, as many as fit, and says how many there are. Refused where the lent keys and
// handles differ in length; where the store says 'down', the places written so far are told.
pub fn report<K: Key, S: Store>(
    store: &mut S,
    root: Node,
    low: &K,
    high: &K,
    keys: &mut [K],
    handles: &mut [u64],
) -> Result<u64, Stopped>
    ensures bound { IfErr result (λ e. e.written ≤ length keys.old) }
    ensures uneven { length keys.old ≢ length handles.old → (result ≡ Err (record { fault = own_refusal Uneven; written = 0 })) × (keys.new ≡ keys.old) × (handles.new ≡ handles.old) × (store.new ≡ store.old) }
    ensures reports { length keys.old ≡ length handles.old → Leaves S.meaning S.ready (Reports (kind K.width K.order K.packed K.unpacked) root low.now high.now keys.old handles.old keys.new handles.new) store.old result store.new }
{
    if keys.len() != handles.len() {
        return Err(Stopped::from(refuse(Refusal::Uneven)));
    }
    let all = count_within(store, root, low, high)?;
    let fit = all.min(keys.len() as u64) as usize;
    let mut written = 0;
    let end = write_from(
        store,
        root,
        low,
        &mut keys[..fit],
        &mut handles[..fit],
        &mut written,
    );
    match end {
        Ok(()) => Ok(all),
        Err(fault) => Err(Stopped { fault, written }),
    }
}
