// The search for a key in a node, by halving.
ghost use Rattle.std.specs.Prelude.{◌≤◌, IfOk};
ghost use Rattle.store.specs.Calls.{Leaves};
ghost use Rattle.copies.specs.Work.{Work, Fails};
ghost use Rattle.nodes.specs.Places.{form};
ghost use Rattle.nodes.specs.Nodes.{Node, Overfull, Damage};
ghost use Rattle.nodes.specs.Finds.{Found};

use crate::read::{count, entry_key};
use keys::key::Key;
use store::blocks::Store;
use store::fault::Fault;

// How many of the node's keys are at most `q`.
pub fn keys_up_to<K: Key, S: Store>(store: &mut S, block: u32, q: &K) -> Result<u32, Fault>
    ensures within { IfOk result (λ n. n ≤ 80) }
    ensures finds { Leaves S.meaning S.ready (Work (Node (form K.width) block) (Found (form K.width) K.order K.unpacked block q.now)) store.old result store.new }
    ensures refuses { Leaves S.meaning S.ready (Fails (Overfull block) (Damage block)) store.old result store.new }
{
    // by hand: the keys are read through a store that may fail, and no search of the library halves over such reads
    let mut low = 0;
    let mut high = count(store, block)?;
    while low < high {
        let mid = low + (high - low) / 2;
        let key: K = entry_key(store, block, mid)?;
        if key.compare(q).is_gt() {
            high = mid;
        } else {
            low = mid + 1;
        }
    }
    Ok(low)
}
