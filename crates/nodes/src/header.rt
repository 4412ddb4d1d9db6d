// The header block: words of a key, root block, root level and key count, in words 0 to 3.
ghost use Rattle.store.specs.Calls.{Leaves};
ghost use Rattle.copies.specs.Work.{Work};
ghost use Rattle.copies.specs.Blocks.{Edited, filled};
ghost use Rattle.nodes.specs.Headers.{Headroom, header_words};

use crate::node::Node;
use keys::key::Key;
use store::blocks::Store;
use store::fault::Fault;

// Where the tree stands, and how large it is.
#[derive(Clone, Copy)]
pub struct Header {
    pub root: Node,
    pub keys: u64,
}

// Writes the header into its block.
pub fn put_header<K: Key, S: Store>(store: &mut S, block: u32, header: &Header) -> Result<(), Fault>
    ensures { Leaves S.meaning S.ready (Work (Headroom block) (Edited block (filled 0 (header_words K.width header.now) 4))) store.old result store.new }
{
    store.set(block, 0, u64::from(K::words()))?;
    store.set(block, 1, u64::from(header.root.block))?;
    store.set(block, 2, u64::from(header.root.level))?;
    store.set(block, 3, header.keys)
}
