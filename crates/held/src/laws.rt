// The laws of blocks that hold a tree, each the contract of a function that does nothing.
ghost use Rattle.held.specs.Held.{kind};
ghost use Rattle.held.specs.Laws.{Known};

use keys::key::Key;

// A node is known by the words of its own blocks: whatever else changes, it stays. The clause spells the kind of key out: a
// member of `Key` could not name what a crate above it defines.
pub fn known_by_its_blocks<K: Key>()
    ensures { Known (kind K.Key.width K.Key.order K.Key.packed K.Key.unpacked) }
{}
