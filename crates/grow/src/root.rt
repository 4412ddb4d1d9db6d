// A block for a root.
ghost use Rattle.std.specs.Prelude.{◌<◌, ◌≤◌, IfOk};
ghost use Rattle.store.specs.Meaning.{count};
ghost use Rattle.store.specs.Calls.{TakeDone, Leaves};
ghost use Rattle.copies.specs.Work.{Work};

use nodes::layout::damaged;
use store::blocks::{LARGEST_BLOCK, Store};
use store::fault::Fault;

// Takes a block for a root. Any store answers, so the number's range is tested.
pub fn take_root<S: Store>(store: &mut S) -> Result<u32, Fault>
    ensures bound { IfOk result (λ block. (1 ≤ block) × (block ≤ 1048575)) }
    ensures takes { Leaves S.meaning S.ready (Work (λ m. count m < m.shape.capacity) TakeDone) store.old result store.new }
{
    let block = store.take()?;
    if !(1..=LARGEST_BLOCK).contains(&block) {
        return Err(damaged(block));
    }
    Ok(block)
}
