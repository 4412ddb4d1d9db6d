// A child that grew: its entry corrected, and the child split where it weighs too much.
ghost use Rattle.std.specs.Prelude.{◌≡◌, ◌+◌, ◌≤◌, IfOk};
ghost use Rattle.std.specs.Ordering.{ord_min};
ghost use Rattle.store.specs.Calls.{Leaves};
ghost use Rattle.copies.specs.Work.{Work};
ghost use Rattle.held.specs.Held.{kind};
ghost use Rattle.tree.specs.declared.mark.Mark.TheVariants.{Split};
ghost use Rattle.grow.specs.Inserts.{TooHeavy, Due, Settled, Tall, Raised};

use crate::root::take_root;
use balance::cut::{Halves, halve};
use balance::limits::limit;
use balance::way::Way;
use keys::key::Key;
use nodes::edit::{insert_entry, move_tail, replace_entry};
use nodes::entry::Entry;
use nodes::layout::LEVEL_AT;
use nodes::node::Node;
use nodes::read::{entry_key, entry_weight};
use store::blocks::Store;
use store::fault::Fault;
use tree::mark::Mark;

// Splits a child over its block and a new one; `low` is its smallest key.
pub fn divide<K: Key, S: Store>(store: &mut S, way: Way, low: K) -> Result<(), Fault>
    ensures { Leaves S.meaning S.ready (Work (TooHeavy (kind K.width K.order K.packed K.unpacked) way low) (λ m _ n. Settled (kind K.width K.order K.packed K.unpacked) way m Split n)) store.old result store.new }
{
    let child = way.child.block;
    let halves: Halves<K> = halve(store, way.child)?;
    let fresh = store.take()?;
    move_tail::<K, S>(store, child, fresh, halves.kept)?;
    let right = Entry::of_child(halves.right, halves.key, fresh);
    insert_entry(store, way.parent, way.place + 1, &right)?;
    let left = Entry::of_child(halves.left, low, child);
    replace_entry(store, way.parent, way.place, &left)
}

// The smaller of a stored key and a sought one.
fn smaller<K: Key>(stored: K, sought: K) -> K
    ensures { result ≡ ord_min K.order stored sought }
{
    if stored.compare(&sought).is_gt() {
        sought
    } else {
        stored
    }
}

// Corrects the entry of a child that `key` was put into, and splits the child if it weighs too much.
pub fn settle<K: Key, S: Store>(store: &mut S, way: Way, key: K) -> Result<Mark, Fault>
    ensures { Leaves S.meaning S.ready (Work (Due (kind K.width K.order K.packed K.unpacked) way key) (Settled (kind K.width K.order K.packed K.unpacked) way)) store.old result store.new }
{
    let weight = entry_weight(store, way.parent, way.place)?;
    let low = smaller(entry_key::<K, S>(store, way.parent, way.place)?, key);
    if weight < limit(way.child.level) {
        let entry = Entry::of_child(weight + 1, low, way.child.block);
        replace_entry(store, way.parent, way.place, &entry)?;
        return Ok(Mark::Nothing);
    }
    divide(store, way, low)?;
    Ok(Mark::Split)
}

// Puts a new root above a root that weighs one more than `keys`, which is too much, and splits that.
pub fn raise<K: Key, S: Store>(store: &mut S, root: Node, keys: u64) -> Result<Node, Fault>
    requires { root.level ≤ 4 }
    ensures block { IfOk result (λ top. (1 ≤ top.block) × (top.block ≤ 1048575)) }
    ensures level { IfOk result (λ top. top.level ≡ root.level + 1) }
    ensures raises { Leaves S.meaning S.ready (Work (Tall (kind K.width K.order K.packed K.unpacked) root keys) (Raised (kind K.width K.order K.packed K.unpacked) root)) store.old result store.new }
{
    let low: K = entry_key(store, root.block, 0)?;
    let top = take_root(store)?;
    let level = root.level + 1;
    store.set(top, LEVEL_AT, u64::from(level))?;
    let entry = Entry::of_child(keys, low, root.block);
    insert_entry(store, top, 0, &entry)?;
    let way = Way {
        parent: top,
        place: 0,
        child: root,
    };
    divide(store, way, low)?;
    Ok(Node { block: top, level })
}
