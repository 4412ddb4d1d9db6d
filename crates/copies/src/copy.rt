// Runs of words copied between blocks, or within one.
ghost use Rattle.std.specs.Prelude.{◌≡◌, ◌+◌, ◌^◌, ◌<◌};
ghost use Rattle.store.specs.Calls.{Leaves};
ghost use Rattle.copies.specs.Work.{Work};
ghost use Rattle.copies.specs.Blocks.{Copyable, Pasted, spot};

use store::blocks::Store;
use store::fault::Fault;

// A word's place in a block.
#[derive(Clone, Copy, PartialEq, Eq, Debug)]
pub struct Spot {
    pub block: u32,
    pub at: u32,
}

impl Spot {
    // The spot of a place in a block.
    pub fn new(block: u32, at: u32) -> Spot
        ensures { result ≡ spot block at }
    {
        Spot { block, at }
    }

    // The spot `i` words on.
    fn ahead(self, i: u32) -> Spot
        requires room { self.at + i < 2 ^ 32 }
        ensures { result ≡ spot self.block (self.at + i) }
    {
        Spot::new(self.block, self.at + i)
    }
}

// Copies one word.
fn copy_word<S: Store>(store: &mut S, from: Spot, to: Spot) -> Result<(), Fault>
    ensures { Leaves S.meaning S.ready (Work (Copyable from to 1) (Pasted from to 1)) store.old result store.new }
{
    let word = store.get(from.block, from.at)?;
    store.set(to.block, to.at, word)
}

// Copies `len` words from one spot on to another, which may lie in the same block: each word arrives as it
// was before the call, since a copy to a later place goes last to first.
pub fn copy_run<S: Store>(store: &mut S, from: Spot, to: Spot, len: u32) -> Result<(), Fault>
    requires room { (from.at + len < 2 ^ 32) × (to.at + len < 2 ^ 32) }
    ensures { Leaves S.meaning S.ready (Work (Copyable from to len) (Pasted from to len)) store.old result store.new }
{
    // two loops: a range and its reverse are two types, and one loop would work out each place by the direction
    let forward = to.at <= from.at;
    if forward {
        for i in 0..len {
            copy_word(store, from.ahead(i), to.ahead(i))?;
        }
    } else {
        for i in (0..len).rev() {
            copy_word(store, from.ahead(i), to.ahead(i))?;
        }
    }
    Ok(())
}
