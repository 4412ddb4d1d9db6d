// A pair put into the tree.
ghost use Rattle.std.specs.Prelude.{◌≡◌};
ghost use Rattle.store.specs.Calls.{Leaves};
ghost use Rattle.copies.specs.Work.{Work};
ghost use Rattle.tree.specs.Tree.{adds};
ghost use Rattle.balance.specs.Updates.{Decided};
ghost use Rattle.held.specs.Held.{kind};
ghost use Rattle.held.specs.Roots.{Stands, Becomes};
ghost use Rattle.grow.specs.Surveys.{refusal};
ghost use Rattle.grow.specs.Inserts.{Roomy, Grew};

use crate::split::{raise, settle};
use crate::survey::survey;
use balance::down::way_down;
use balance::limits::{TOP_LEVEL, limit};
use balance::marks::Marks;
use balance::update::{Tree, Updated, refuse};
use keys::key::Key;
use nodes::edit::insert_entry;
use nodes::entry::Entry;
use nodes::header::Header;
use nodes::node::Node;
use nodes::search::keys_up_to;
use store::blocks::Store;
use store::fault::{Fault, Refusal};
use tree::mark::Mark;

// Puts a pair in below a node, whose own weight its parent looks at.
pub fn insert_below<K: Key, S: Store>(
    store: &mut S,
    node: Node,
    key: &K,
    handle: u64,
) -> Result<Marks, Fault>
    ensures { Leaves S.meaning S.ready (Work (Roomy (kind K.width K.order K.packed K.unpacked) node key.now) (Grew (kind K.width K.order K.packed K.unpacked) node key.now handle)) store.old result store.new }
{
    if node.level == 0 {
        let place = keys_up_to(store, node.block, key)?;
        let entry = Entry {
            weight: 1,
            key: *key,
            child: handle,
        };
        insert_entry(store, node.block, place, &entry)?;
        return Ok(Marks::none());
    }
    let way = way_down(store, node, key)?;
    let marks = insert_below(store, way.child, key, handle)?;
    let mark = settle(store, way, *key)?;
    Ok(marks.with(way.child.level, mark))
}

// Refuses an insertion before anything is written: present, then full, then no room.
fn admit<K: Key, S: Store>(store: &mut S, tree: Tree, key: &K) -> Result<(), Fault>
    ensures { Leaves S.meaning S.ready (Decided (Stands (kind K.width K.order K.packed K.unpacked) tree.header) (refusal (kind K.width K.order K.packed K.unpacked) tree.header key.now) (λ m _ n. n ≡ m)) store.old result store.new }
{
    let Header { root, keys } = tree.header;
    let Some(full) = survey(store, root, key)? else {
        return Err(refuse(Refusal::Present));
    };
    let root_full = keys >= limit(root.level);
    if root_full && root.level == TOP_LEVEL {
        return Err(refuse(Refusal::Full));
    }
    let wanted = if root_full { full + 2 } else { full };
    if store.stock()?.free() < wanted {
        return Err(refuse(Refusal::NoRoom));
    }
    Ok(())
}

// Puts a pair in. A root that becomes too heavy is split under a new root.
pub fn insert<K: Key, S: Store>(
    store: &mut S,
    tree: Tree,
    key: &K,
    handle: u64,
) -> Result<Updated, Fault>
    ensures { Leaves S.meaning S.ready (Decided (Stands (kind K.width K.order K.packed K.unpacked) tree.header) (refusal (kind K.width K.order K.packed K.unpacked) tree.header key.now) (Becomes (kind K.width K.order K.packed K.unpacked) tree.header (adds key.now handle))) store.old result store.new }
{
    admit(store, tree, key)?;
    let Header { root, keys } = tree.header;
    let marks = insert_below(store, root, key, handle)?;
    if keys < limit(root.level) {
        let header = Header {
            root,
            keys: keys + 1,
        };
        return Ok(Updated {
            tree: Tree { header },
            marks,
        });
    }
    if root.level >= TOP_LEVEL {
        return Err(refuse(Refusal::Full));
    }
    let header = Header {
        root: raise::<K, S>(store, root, keys)?,
        keys: keys + 1,
    };
    Ok(Updated {
        tree: Tree { header },
        marks: marks.with(root.level, Mark::Split),
    })
}
