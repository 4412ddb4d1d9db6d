// What a pile needs first: a fresh store in lent runs, and a table of lines for its cache.
ghost use Rattle.stores.specs.Opened.{Fresh};
ghost use Rattle.cache.specs.Lines.{MadeTable};
ghost use Rattle.piles.specs.Lined.{WithLines};
ghost use Rattle.piles.specs.Runs.{OverFresh};

use crate::one::Ended;
use cache::line::LineTable;
use std::alloc::Global;
use store::fault::{Refused, Unmade};
use stores::layout::Layout;
use stores::lent::{LentStore, Runs};

// Makes a fresh store in lent runs, takes a step with it, and ends it into its runs.
pub fn over_fresh<'a, L: Layout, F>(
    runs: Runs<'a, L>,
    width: u32,
    step: F,
) -> Ended<L::Cause, Runs<'a, L>>
where
    F: FnOnce(LentStore<'a, L>) -> Ended<L::Cause, LentStore<'a, L>>,
    requires { (s : _) → Fresh L.plan width runs.layout runs.marks.now runs.words.now s → F.pre step s }
    ensures { OverFresh L.plan (F.post step) width runs.entry result }
{
    match LentStore::fresh(runs, width) {
        Ok(store) => {
            let Ended { answer, back } = step(store);
            Ended {
                answer,
                back: back.into_runs(),
            }
        }
        // by a match, as where a cache is closed: there the cause may be one deeper
        Err(Refused { cause, back }) => Ended {
            answer: Err(cause),
            back,
        },
    }
}

// Makes a table of so many lines, and takes a step with it over what was lent, which is handed back.
pub fn with_lines<T, F: FnOnce(LineTable, T) -> Ended<Unmade, T>>(
    heap: Global,
    lines: u32,
    lent: T,
    step: F,
) -> Ended<Unmade, T>
    requires { (t : _) → MadeTable lines t → F.pre step t lent }
    ensures { WithLines lines (λ t r. F.post step t lent r) lent result }
{
    match LineTable::new(heap, lines) {
        Ok(table) => step(table, lent),
        Err(why) => Ended {
            answer: Err(why),
            back: lent,
        },
    }
}
