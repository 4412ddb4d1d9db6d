// Entries of a node written, put in, taken out, and moved between nodes.
// block and place are two parameters, as a slice and an index are: a change of one place moves others of its block
ghost use Rattle.std.specs.Prelude.{◌<◌};
ghost use Rattle.store.specs.Calls.{Leaves};
ghost use Rattle.copies.specs.Work.{Work};
ghost use Rattle.copies.specs.Blocks.{Edited, filled};
ghost use Rattle.nodes.specs.Places.{form, key_at};
ghost use Rattle.nodes.specs.Nodes.{Room, entry_of, placed, Has, Open, Joinable, Partable, Changed, Joined, Parted, insert_at, replace_at, remove_at};

use crate::carry::copy_entries;
use crate::entry::Entry;
use crate::layout::{COUNT_AT, LEVEL_AT, PLACES, child_at, damaged, key_at, weight_at};
use crate::read::count;
use keys::key::Key;
use store::blocks::Store;
use store::fault::Fault;

// Writes a key's words where entry i has them.
fn put_key<K: Key, S: Store>(store: &mut S, block: u32, i: u32, key: &K) -> Result<(), Fault>
    requires within { i < 80 }
    ensures { Leaves S.meaning S.ready (Work (Room (form K.width) block) (Edited block (filled (key_at (form K.width) i) (K.packed key.now) K.width))) store.old result store.new }
{
    let at = key_at::<K>(i);
    for j in 0..K::words() {
        store.set(block, at + j, key.word(j))?;
    }
    Ok(())
}

// Writes an entry at place i, whatever stands there.
fn put_entry<K: Key, S: Store>(
    store: &mut S,
    block: u32,
    i: u32,
    entry: &Entry<K>,
) -> Result<(), Fault>
    requires within { i < 80 }
    ensures { Leaves S.meaning S.ready (Work (Room (form K.width) block) (Edited block (placed (form K.width) i (entry_of K.packed entry.now)))) store.old result store.new }
{
    store.set(block, weight_at(i), entry.weight)?;
    put_key(store, block, i, &entry.key)?;
    store.set(block, child_at::<K>(i), entry.child)
}

// Writes an entry over the one at place i.
#[tactic(auto, using(crate::proofs::Lists::replace_holds))]
pub fn replace_entry<K: Key, S: Store>(
    store: &mut S,
    block: u32,
    i: u32,
    entry: &Entry<K>,
) -> Result<(), Fault>
    ensures { Leaves S.meaning S.ready (Work (Has (form K.width) block i) (Changed (form K.width) block (replace_at i (entry_of K.packed entry.now)))) store.old result store.new }
{
    let held = count(store, block)?;
    if i >= held {
        return Err(damaged(block));
    }
    put_entry(store, block, i, entry)
}

// Puts an entry in before the one at place i, or last.
pub fn insert_entry<K: Key, S: Store>(
    store: &mut S,
    block: u32,
    i: u32,
    entry: &Entry<K>,
) -> Result<(), Fault>
    ensures { Leaves S.meaning S.ready (Work (Open (form K.width) block i) (Changed (form K.width) block (insert_at i (entry_of K.packed entry.now)))) store.old result store.new }
{
    let n = count(store, block)?;
    if n >= PLACES || i > n {
        return Err(damaged(block));
    }
    copy_entries::<K, S>(store, block, i, block, i + 1, n - i)?;
    put_entry(store, block, i, entry)?;
    store.set(block, COUNT_AT, u64::from(n) + 1)
}

// Takes the entry at place i out.
pub fn remove_entry<K: Key, S: Store>(store: &mut S, block: u32, i: u32) -> Result<(), Fault>
    ensures { Leaves S.meaning S.ready (Work (Has (form K.width) block i) (Changed (form K.width) block (remove_at i))) store.old result store.new }
{
    let n = count(store, block)?;
    if i >= n {
        return Err(damaged(block));
    }
    copy_entries::<K, S>(store, block, i + 1, block, i, n - (i + 1))?;
    store.set(block, COUNT_AT, u64::from(n) - 1)
}

// Puts all entries of block `from` after those of `to`.
pub fn append_all<K: Key, S: Store>(store: &mut S, from: u32, to: u32) -> Result<(), Fault>
    ensures { Leaves S.meaning S.ready (Work (Joinable (form K.width) from to) (Joined (form K.width) from to)) store.old result store.new }
{
    let kept = count(store, to)?;
    let more = count(store, from)?;
    if kept + more > PLACES {
        return Err(damaged(to));
    }
    copy_entries::<K, S>(store, from, 0, to, kept, more)?;
    store.set(to, COUNT_AT, u64::from(kept) + u64::from(more))
}

// Moves the entries from place m on to block `to`, which becomes a node of the same level.
pub fn move_tail<K: Key, S: Store>(store: &mut S, from: u32, to: u32, m: u32) -> Result<(), Fault>
    ensures { Leaves S.meaning S.ready (Work (Partable (form K.width) from to m) (Parted (form K.width) from to m)) store.old result store.new }
{
    let level = store.get(from, LEVEL_AT)?;
    let n = count(store, from)?;
    if m > n || from == to {
        return Err(damaged(from));
    }
    copy_entries::<K, S>(store, from, m, to, 0, n - m)?;
    store.set(to, LEVEL_AT, level)?;
    store.set(to, COUNT_AT, u64::from(n - m))?;
    store.set(from, COUNT_AT, u64::from(m))
}
