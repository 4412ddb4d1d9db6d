// The way down from a node.
ghost use Rattle.std.specs.Prelude.{◌≡◌, ◌-◌, IfOk};
ghost use Rattle.store.specs.Calls.{Leaves};
ghost use Rattle.copies.specs.Work.{Work};
ghost use Rattle.nodes.specs.Places.{form};
ghost use Rattle.balance.specs.Ways.{Peopled, Led};

use crate::way::Way;
use keys::key::Key;
use nodes::node::Node;
use nodes::read::child_block;
use nodes::search::keys_up_to;
use store::blocks::Store;
use store::fault::Fault;

// The last child whose routing key is at most `key`, or the first: one level below the node.
pub fn way_down<K: Key, S: Store>(store: &mut S, node: Node, key: &K) -> Result<Way, Fault>
    ensures child { IfOk result (λ w. (w.parent ≡ node.block) × (w.child.level ≡ node.level - 1)) }
    ensures leads { Leaves S.meaning S.ready (Work (Peopled (form K.width) node.block) (Led (form K.width) K.order K.unpacked node.block key.now)) store.old result store.new }
{
    let upto = keys_up_to(store, node.block, key)?;
    let place = upto.saturating_sub(1);
    let block = child_block::<K, S>(store, node.block, place)?;
    Ok(Way {
        parent: node.block,
        place,
        child: Node {
            block,
            level: node.level.saturating_sub(1),
        },
    })
}
