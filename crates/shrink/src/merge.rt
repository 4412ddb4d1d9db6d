// Two siblings made one, or shared out anew over their two blocks.
ghost use Rattle.std.specs.Prelude.{◌-◌};
ghost use Rattle.store.specs.Calls.{Leaves};
ghost use Rattle.copies.specs.Work.{Work};
ghost use Rattle.held.specs.Held.{kind};
ghost use Rattle.shrink.specs.Merges.{Neighbours, Looked, Mergeable, Merged, Shareable, Shared, Fused};

use balance::cut::{Halves, halve};
use balance::limits::limit;
use balance::way::Way;
use keys::key::Key;
use nodes::edit::{append_all, move_tail, remove_entry, replace_entry};
use nodes::entry::Entry;
use nodes::layout::damaged;
use nodes::node::Node;
use nodes::read::{child_block, count, entry_key, entry_weight};
use store::blocks::Store;
use store::fault::Fault;
use tree::mark::Mark;

// The ways to two neighbours, the smallest key of the left one, and what both weigh.
#[derive(Clone, Copy)]
pub struct Siblings<K> {
    pub left: Way,
    pub right: Way,
    pub low: K,
    pub weight: u64,
}

// By any place, as `mend` below. The child at a place with its left neighbour, or with its right one if there is no left.
fn neighbours<K: Key, S: Store>(
    store: &mut S,
    parent: u32,
    place: u32,
    level: u32,
) -> Result<Siblings<K>, Fault>
    ensures { Leaves S.meaning S.ready (Work (Neighbours (kind K.width K.order K.packed K.unpacked) parent (place - 1) level) (Looked (kind K.width K.order K.packed K.unpacked) parent (place - 1) level)) store.old result store.new }
{
    let place = place.saturating_sub(1);
    let n = count(store, parent)?;
    if n < 2 || place > n - 2 {
        return Err(damaged(parent));
    }
    let low = entry_key(store, parent, place)?;
    let left = Node {
        block: child_block::<K, S>(store, parent, place)?,
        level,
    };
    let right = Node {
        block: child_block::<K, S>(store, parent, place + 1)?,
        level,
    };
    let left_weight = entry_weight(store, parent, place)?;
    let right_weight = entry_weight(store, parent, place + 1)?;
    Ok(Siblings {
        left: Way {
            parent,
            place,
            child: left,
        },
        right: Way {
            parent,
            place: place + 1,
            child: right,
        },
        low,
        weight: left_weight.saturating_add(right_weight),
    })
}

// Makes the left block hold both nodes, and gives the right block back.
fn merge<K: Key, S: Store>(store: &mut S, pair: &Siblings<K>) -> Result<(), Fault>
    ensures { Leaves S.meaning S.ready (Work (Mergeable (kind K.width K.order K.packed K.unpacked) pair.now) (Merged (kind K.width K.order K.packed K.unpacked) pair.now)) store.old result store.new }
{
    let Siblings { left, right, .. } = *pair;
    append_all::<K, S>(store, right.child.block, left.child.block)?;
    remove_entry::<K, S>(store, right.parent, right.place)?;
    let entry = Entry::of_child(pair.weight, pair.low, left.child.block);
    replace_entry(store, left.parent, left.place, &entry)?;
    store.give_back(right.child.block)
}

// Shares the entries of both out anew, as a node of all of them is split, over the same two blocks.
fn share<K: Key, S: Store>(store: &mut S, pair: &Siblings<K>) -> Result<(), Fault>
    ensures { Leaves S.meaning S.ready (Work (Shareable (kind K.width K.order K.packed K.unpacked) pair.now) (Shared (kind K.width K.order K.packed K.unpacked) pair.now)) store.old result store.new }
{
    let Siblings { left, right, .. } = *pair;
    append_all::<K, S>(store, right.child.block, left.child.block)?;
    let halves: Halves<K> = halve(store, left.child)?;
    move_tail::<K, S>(store, left.child.block, right.child.block, halves.kept)?;
    let entry = Entry::of_child(halves.left, pair.low, left.child.block);
    replace_entry(store, left.parent, left.place, &entry)?;
    let entry = Entry::of_child(halves.right, halves.key, right.child.block);
    replace_entry(store, right.parent, right.place, &entry)
}

// Merges the child at a place, which became too light, with a sibling; a node above 7/8 of the limit is shared out again.
// It takes no `Way`, so that it may be called with any place: the parent's count decides which there are.
pub fn mend<K: Key, S: Store>(
    store: &mut S,
    parent: u32,
    place: u32,
    level: u32,
) -> Result<Mark, Fault>
    ensures { Leaves S.meaning S.ready (Work (Neighbours (kind K.width K.order K.packed K.unpacked) parent (place - 1) level) (Fused (kind K.width K.order K.packed K.unpacked) parent (place - 1) level)) store.old result store.new }
{
    let pair: Siblings<K> = neighbours(store, parent, place, level)?;
    if pair.weight > limit(level) / 8 * 7 {
        share(store, &pair)?;
        return Ok(Mark::MergeSplit);
    }
    merge(store, &pair)?;
    Ok(Mark::Merge)
}
