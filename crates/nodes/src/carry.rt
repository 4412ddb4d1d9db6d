// Entries copied between nodes, or within one.
ghost use Rattle.std.specs.Prelude.{◌+◌, ◌≤◌};
ghost use Rattle.store.specs.Calls.{Leaves};
ghost use Rattle.copies.specs.Work.{Work};
ghost use Rattle.nodes.specs.Places.{form};
ghost use Rattle.nodes.specs.Nodes.{Rooms, Carried};

use crate::layout::{child_at, key_at, weight_at};
use copies::copy::{Spot, copy_run};
use keys::key::Key;
use store::blocks::Store;
use store::fault::Fault;

// Copies `n` entries, those from place `i` on in block `from`, to the places from `j` on in `to`.
// block and place are two parameters and no `Spot`: a place counts entries, and an entry is three spots, made here
pub fn copy_entries<K: Key, S: Store>(
    store: &mut S,
    from: u32,
    i: u32,
    to: u32,
    j: u32,
    n: u32,
) -> Result<(), Fault>
    requires within { (i + n ≤ 80) × (j + n ≤ 80) }
    ensures { Leaves S.meaning S.ready (Work (Rooms (form K.width) from to) (Carried (form K.width) from i to j n)) store.old result store.new }
{
    copy_run(
        store,
        Spot::new(from, weight_at(i)),
        Spot::new(to, weight_at(j)),
        n,
    )?;
    copy_run(
        store,
        Spot::new(from, key_at::<K>(i)),
        Spot::new(to, key_at::<K>(j)),
        K::words() * n,
    )?;
    copy_run(
        store,
        Spot::new(from, child_at::<K>(i)),
        Spot::new(to, child_at::<K>(j)),
        n,
    )
}
