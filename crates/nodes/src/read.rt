// Parts of a node, read.
// block and place are two parameters, as a slice and an index are: callers read several places of one block
ghost use Rattle.std.specs.Prelude.{◌<◌, ◌≤◌, IfOk};
ghost use Rattle.store.specs.Calls.{Leaves};
ghost use Rattle.copies.specs.Work.{Work, Fails};
ghost use Rattle.copies.specs.Blocks.{Word, Read};
ghost use Rattle.nodes.specs.Places.{form, weight_at};
ghost use Rattle.nodes.specs.Nodes.{Room, Countable, Overfull, Damage, Weighs, Keyed, Leads, LeadsTo};

use crate::layout::{COUNT_AT, PLACES, block_of, child_at, damaged, key_at, weight_at};
use keys::key::Key;
use store::blocks::Store;
use store::fault::Fault;

// How many entries the node has; 'damaged' where the word says more than 80.
pub fn count<S: Store>(store: &mut S, block: u32) -> Result<u32, Fault>
    ensures within { IfOk result (λ n. n ≤ 80) }
    ensures counts { Leaves S.meaning S.ready (Work (Countable block) (Read block 1)) store.old result store.new }
    ensures refuses { Leaves S.meaning S.ready (Fails (Overfull block) (Damage block)) store.old result store.new }
{
    let n = store.get(block, COUNT_AT)?;
    if n > u64::from(PLACES) {
        return Err(damaged(block));
    }
    Ok(n as u32)
}

// The weight of entry i.
#[tactic(auto, unfolding(crate::specs::Nodes::entry_at))]
pub fn entry_weight<S: Store>(store: &mut S, block: u32, i: u32) -> Result<u64, Fault>
    requires { i < 80 }
    ensures { Leaves S.meaning S.ready (Work (Word block (weight_at i)) (Weighs block i)) store.old result store.new }
{
    store.get(block, weight_at(i))
}

// The key of entry i.
pub fn entry_key<K: Key, S: Store>(store: &mut S, block: u32, i: u32) -> Result<K, Fault>
    requires { i < 80 }
    ensures { Leaves S.meaning S.ready (Work (Room (form K.width) block) (Keyed (form K.width) K.unpacked block i)) store.old result store.new }
{
    // a part of an array and no Vec: no heap here, and no key has more words
    let mut words = [0u64; 4];
    let key = &mut words[..K::words() as usize];
    for (j, word) in key.iter_mut().enumerate() {
        *word = store.get(block, key_at::<K>(i) + j as u32)?;
    }
    Ok(K::from_words(key))
}

// The child or handle of entry i.
#[tactic(auto, using(crate::proofs::Rooms::room_place), unfolding(crate::specs::Nodes::entry_at))]
pub fn entry_child<K: Key, S: Store>(store: &mut S, block: u32, i: u32) -> Result<u64, Fault>
    requires { i < 80 }
    ensures { Leaves S.meaning S.ready (Work (Room (form K.width) block) (Leads (form K.width) block i)) store.old result store.new }
{
    store.get(block, child_at::<K>(i))
}

// The block of the child of entry i; 0 where the word is no block number.
pub fn child_block<K: Key, S: Store>(store: &mut S, block: u32, i: u32) -> Result<u32, Fault>
    requires { i < 80 }
    ensures { Leaves S.meaning S.ready (Work (Room (form K.width) block) (LeadsTo (form K.width) block i)) store.old result store.new }
{
    Ok(block_of(entry_child::<K, S>(store, block, i)?))
}
