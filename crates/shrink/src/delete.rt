// A pair taken out of the tree.
ghost use Rattle.store.specs.Calls.{Leaves};
ghost use Rattle.copies.specs.Work.{Work};
ghost use Rattle.tree.specs.Tree.{drops};
ghost use Rattle.balance.specs.Updates.{Decided};
ghost use Rattle.held.specs.Held.{kind};
ghost use Rattle.held.specs.Roots.{Stands, Becomes};
ghost use Rattle.shrink.specs.Deletes.{Stale, Mended, Holding, Shrank, Topped, Lowered, refusal};

use crate::merge::mend;
use ask::find::find;
use balance::down::way_down;
use balance::limits::limit;
use balance::marks::Marks;
use balance::update::{Tree, Updated, refuse};
use balance::way::Way;
use keys::key::Key;
use nodes::edit::{remove_entry, replace_entry};
use nodes::entry::Entry;
use nodes::header::Header;
use nodes::layout::damaged;
use nodes::node::Node;
use nodes::read::{child_block, count, entry_key, entry_weight};
use nodes::search::keys_up_to;
use store::blocks::{LARGEST_BLOCK, Store};
use store::fault::{Fault, Refusal};
use tree::mark::Mark;

// Corrects the entry of a child that lost a key, and merges the child if it weighs too little.
fn settle<K: Key, S: Store>(store: &mut S, way: Way) -> Result<Mark, Fault>
    ensures { Leaves S.meaning S.ready (Work (Stale (kind K.width K.order K.packed K.unpacked) way) (Mended (kind K.width K.order K.packed K.unpacked) way)) store.old result store.new }
{
    let weight = entry_weight(store, way.parent, way.place)?.saturating_sub(1);
    let low: K = entry_key(store, way.child.block, 0)?;
    let entry = Entry::of_child(weight, low, way.child.block);
    replace_entry(store, way.parent, way.place, &entry)?;
    if weight >= limit(way.child.level) / 4 {
        return Ok(Mark::Nothing);
    }
    mend::<K, S>(store, way.parent, way.place, way.child.level)
}

// Takes a key, which is there, out below a node, whose own weight its parent looks at.
pub fn delete_below<K: Key, S: Store>(store: &mut S, node: Node, key: &K) -> Result<Marks, Fault>
    ensures { Leaves S.meaning S.ready (Work (Holding (kind K.width K.order K.packed K.unpacked) node key.now) (Shrank (kind K.width K.order K.packed K.unpacked) node key.now)) store.old result store.new }
{
    if node.level == 0 {
        let Some(last) = keys_up_to(store, node.block, key)?.checked_sub(1) else {
            return Err(damaged(node.block));
        };
        remove_entry::<K, S>(store, node.block, last)?;
        return Ok(Marks::none());
    }
    let way = way_down(store, node, key)?;
    let marks = delete_below(store, way.child, key)?;
    let mark = settle::<K, S>(store, way)?;
    Ok(marks.with(way.child.level, mark))
}

// Gives back an inner root that has one child left, which is then the root.
fn lower<K: Key, S: Store>(store: &mut S, tree: Tree) -> Result<Tree, Fault>
    ensures { Leaves S.meaning S.ready (Work (Topped (kind K.width K.order K.packed K.unpacked) tree.header) (Lowered (kind K.width K.order K.packed K.unpacked) tree.header)) store.old result store.new }
{
    let Header { root, keys } = tree.header;
    if root.level == 0 || count(store, root.block)? != 1 {
        return Ok(tree);
    }
    let block = child_block::<K, S>(store, root.block, 0)?;
    let level = root.level - 1;
    // not by `take_root` of insertion: no block is taken here, and the root before is to blame
    if !(1..=LARGEST_BLOCK).contains(&block) || keys > limit(level) {
        return Err(damaged(root.block));
    }
    store.give_back(root.block)?;
    let header = Header {
        root: Node { block, level },
        keys,
    };
    Ok(Tree { header })
}

// Takes a key out; refused where it is absent.
pub fn delete<K: Key, S: Store>(store: &mut S, tree: Tree, key: &K) -> Result<Updated, Fault>
    ensures { Leaves S.meaning S.ready (Decided (Stands (kind K.width K.order K.packed K.unpacked) tree.header) (refusal (kind K.width K.order K.packed K.unpacked) tree.header key.now) (Becomes (kind K.width K.order K.packed K.unpacked) tree.header (drops key.now))) store.old result store.new }
{
    let Header { root, keys } = tree.header;
    if find(store, root, key)?.is_none() {
        return Err(refuse(Refusal::Absent));
    }
    let marks = delete_below(store, root, key)?;
    let header = Header {
        root,
        keys: keys.saturating_sub(1),
    };
    let tree = lower::<K, S>(store, Tree { header })?;
    Ok(Updated { tree, marks })
}
