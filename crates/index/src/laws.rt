// The laws of an index in blocks, each the contract of a function that does nothing.
ghost use Rattle.held.specs.Held.{kind};
ghost use Rattle.index.specs.Laws.{BlocksGranted, FullLeafRoot};

use keys::key::Key;
use store::blocks::Store;

// The blocks granted in an index's store are its header and the nodes of its tree.
pub fn blocks_granted<K: Key, S: Store>()
    ensures { BlocksGranted (kind K.Key.width K.Key.order K.Key.packed K.Key.unpacked) S.meaning S.ready }
{}

// A leaf root of 64 keys stands in two blocks; one insertion makes them four, and needs two that are free.
pub fn full_leaf_root<K: Key, S: Store>()
    ensures { FullLeafRoot (kind K.Key.width K.Key.order K.Key.packed K.Key.unpacked) S.meaning S.ready }
{}
