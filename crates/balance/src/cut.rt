// Where a node is split.
ghost use Rattle.std.specs.Prelude.{◌+◌, ◌*◌, ◌^◌, ◌<◌, ◌≤◌, IfOk};
ghost use Rattle.store.specs.Calls.{Leaves};
ghost use Rattle.copies.specs.Work.{Work};
ghost use Rattle.nodes.specs.Places.{form};
ghost use Rattle.balance.specs.Cuts.{Weighable, Weighed, Counted, Summed, Totalled, CutAt, Heavy, Halved};

use keys::key::Key;
use nodes::layout::damaged;
use nodes::node::Node;
use nodes::read::{count, entry_key, entry_weight};
use store::blocks::Store;
use store::fault::Fault;

// Far above any weight: sums of 80 weights stay within a word.
const HEAVIEST: u64 = 1 << 40;

// What entry i adds to its node's weight: 1 in a leaf. Places and counts here are bounded one by one, with no type of their
// own: each is the next of a count just read.
pub fn weigh<K: Key, S: Store>(store: &mut S, node: Node, i: u32) -> Result<u64, Fault>
    requires within { i < 80 }
    ensures bound { IfOk result (λ w. w ≤ 2 ^ 40) }
    ensures weighs { Leaves S.meaning S.ready (Work (Weighable (form K.width) node.block node.level i) (Weighed (form K.width) node.block node.level i)) store.old result store.new }
{
    if node.level == 0 {
        return Ok(1);
    }
    let weight = entry_weight(store, node.block, i)?;
    if weight > HEAVIEST {
        return Err(damaged(node.block));
    }
    Ok(weight)
}

// What a node of n entries weighs.
pub fn whole_weight<K: Key, S: Store>(store: &mut S, node: Node, n: u32) -> Result<u64, Fault>
    requires within { n ≤ 80 }
    ensures bound { IfOk result (λ w. w ≤ 80 * 2 ^ 40) }
    ensures sums { Leaves S.meaning S.ready (Work (Counted (form K.width) node.block node.level n) (Summed (form K.width) node.block node.level)) store.old result store.new }
{
    let mut all: u64 = 0;
    for i in 0..n {
        let weight = weigh::<K, S>(store, node, i)?;
        all += weight;
    }
    Ok(all)
}

// How many entries a split node keeps, and what they weigh.
#[derive(Clone, Copy)]
pub struct Cut {
    pub kept: u32,
    pub passed: u64,
}

// The most entries whose weight is at most that of the rest, of n entries that weigh `all`.
pub fn split_point<K: Key, S: Store>(
    store: &mut S,
    node: Node,
    n: u32,
    all: u64,
) -> Result<Cut, Fault>
    requires within { n ≤ 80 }
    requires bound { all ≤ 80 * 2 ^ 40 }
    ensures bound { IfOk result (λ c. (c.kept ≤ n) × (c.passed ≤ all)) }
    ensures cuts { Leaves S.meaning S.ready (Work (Totalled (form K.width) node.block node.level n all) (CutAt (form K.width) node.block node.level)) store.old result store.new }
{
    let mut passed: u64 = 0;
    for kept in 0..n {
        let weight = weigh::<K, S>(store, node, kept)?;
        if 2 * (passed + weight) > all {
            return Ok(Cut { kept, passed });
        }
        passed += weight;
    }
    Ok(Cut { kept: n, passed })
}

// The two nodes that a node is split into: entries that the left one keeps, what both weigh, and the
// smallest key of the right one.
#[derive(Clone, Copy)]
pub struct Halves<K> {
    pub kept: u32,
    pub left: u64,
    pub right: u64,
    pub key: K,
}

// How the node in a block is to be split.
pub fn halve<K: Key, S: Store>(store: &mut S, node: Node) -> Result<Halves<K>, Fault>
    ensures { Leaves S.meaning S.ready (Work (Heavy (form K.width) node.block node.level) (Halved (form K.width) K.unpacked node.block node.level)) store.old result store.new }
{
    let n = count(store, node.block)?;
    let all = whole_weight::<K, S>(store, node, n)?;
    let cut = split_point::<K, S>(store, node, n, all)?;
    if cut.kept >= n {
        return Err(damaged(node.block));
    }
    let key = entry_key(store, node.block, cut.kept)?;
    Ok(Halves {
        kept: cut.kept,
        left: cut.passed,
        right: all - cut.passed,
        key,
    })
}
