// Lines that go down to a store and come up from it.
ghost use Rattle.std.specs.Prelude.{◌≡◌, ◌≤◌, IfOk};
ghost use Rattle.store.specs.Calls.{Leaves};
ghost use Rattle.cache.specs.Lines.{view};
ghost use Rattle.cache.specs.Steps.{Spilled, Emptied, Filled, Heard};

use crate::line::Line;
use store::blocks::{Store, WIDEST};
use store::fault::Fault;

// Writes the words of a line into its block below.
fn spill<S: Store>(store: &mut S, line: &Line) -> Result<(), Fault>
    ensures { Leaves S.meaning S.ready (Spilled (view line.now)) store.old result store.new }
{
    for (i, word) in line.words.iter().enumerate() {
        store.set(line.block, i as u32, *word)?;
    }
    Ok(())
}

// Writes the words of a changed line into its block below, and leaves the line with no block.
pub(crate) fn empty<S: Store>(store: &mut S, line: &mut Line) -> Result<(), Fault>
    ensures leaves { Leaves S.meaning S.ready (Emptied (view line.old) (view line.new)) store.old result store.new }
    ensures used { IfOk result (λ _. line.new.used ≡ 0) }
    ensures sooner { line.new.used ≤ line.old.used }
{
    if line.goes() {
        spill(store, line)?;
    }
    line.clear();
    Ok(())
}

// Reads a block into a line that has none.
pub(crate) fn fill<S: Store>(store: &mut S, block: u32, line: &mut Line) -> Result<(), Fault>
    ensures leaves { Leaves S.meaning S.ready (Filled block (view line.old) (view line.new)) store.old result store.new }
    ensures used { line.new.used ≡ line.old.used }
{
    let width = store.stock()?.width.min(WIDEST);
    line.words.clear();
    for i in 0..width {
        let word = store.get(block, i)?;
        line.words.push_reserved(word);
    }
    line.changed = false;
    line.block = block;
    Ok(())
}

// Asks a store that was lost again. A store that was not lost is left alone. The flag is tested here and not at the caller, so
// that one relation tells both cases.
pub(crate) fn heard<S: Store>(store: &mut S, lost: bool) -> Result<(), Fault>
    ensures { Leaves S.meaning S.ready (Heard lost) store.old result store.new }
{
    if lost {
        store.stock()?;
    }
    Ok(())
}
