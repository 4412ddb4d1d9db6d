// The way of a key, looked at before anything is written.
ghost use Rattle.std.specs.Prelude.{◌≤◌, IfOk, IfSome};
ghost use Rattle.store.specs.Calls.{Leaves};
ghost use Rattle.held.specs.Held.{kind};
ghost use Rattle.grow.specs.Surveys.{Surveys};

use ask::find::find;
use balance::down::way_down;
use balance::limits::limit;
use keys::key::Key;
use nodes::node::Node;
use nodes::read::entry_weight;
use store::blocks::Store;
use store::fault::Fault;

// How many nodes below this one are full on the way of a key, or nothing where the key is present.
pub fn survey<K: Key, S: Store>(store: &mut S, node: Node, key: &K) -> Result<Option<u32>, Fault>
    ensures bound { IfOk result (λ found. IfSome found (λ full. full ≤ node.level)) }
    ensures tells { Leaves S.meaning S.ready (Surveys (kind K.width K.order K.packed K.unpacked) node key.now) store.old result store.new }
{
    if node.level == 0 {
        let present = find(store, node, key)?.is_some();
        return Ok(if present { None } else { Some(0) });
    }
    let way = way_down(store, node, key)?;
    let weight = entry_weight(store, way.parent, way.place)?;
    let Some(full) = survey(store, way.child, key)? else {
        return Ok(None);
    };
    Ok(Some(full + u32::from(weight == limit(way.child.level))))
}
