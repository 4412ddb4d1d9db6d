// A quota over a cache over a table store.
ghost use Rattle.store.specs.Calls.{Left};
ghost use Rattle.quota.specs.Quota.{quota_shape};
ghost use Rattle.cache.specs.Lines.{Unused};
ghost use Rattle.cache.specs.Cache.{cached_shape};
ghost use Rattle.piles.specs.One.{Use};
ghost use Rattle.piles.specs.Runs.{Cached, QuotaCache};

use crate::fresh::{over_fresh, with_lines};
use crate::one::{Ended, use_one};
use cache::cached::Cache;
use cache::line::LineTable;
use quota::quota::Quota;
use std::alloc::Global;
use store::blocks::Store;
use store::fault::{Fault, Refused, Unmade};
use stores::lent::Runs;
use stores::table::Rows;

// Puts a word into a block of a fresh table store through a cache of so many lines and a quota of p blocks above it,
// then ends all: the word stands in the lent words.
pub fn quota_over_cache<'a>(
    heap: Global,
    runs: Runs<'a, Rows>,
    width: u32,
    lines: u32,
    p: u64,
    word: u64,
) -> Ended<Unmade, Runs<'a, Rows>>
    ensures { QuotaCache p lines width word runs.entry result.answer result.back }
{
    with_lines(heap, lines, runs, |table, runs| {
        over_table(runs, width, table, p, word).unmade()
    })
}

// The same with a table of lines that were never used.
pub fn over_table<'a>(
    runs: Runs<'a, Rows>,
    width: u32,
    table: LineTable,
    p: u64,
    word: u64,
) -> Ended<Fault, Runs<'a, Rows>>
    ensures { Unused table → Cached p width word runs.entry result.answer result.back }
{
    over_fresh(runs, width, |store| through_cache(store, table, p, word))
}

// Uses one block of a store through a cache and a quota of p blocks above it. A fault met in closing is the answer, one
// deeper than without the quota, so the ending is not shared with a bare cache.
pub fn through_cache<S: Store>(store: S, table: LineTable, p: u64, word: u64) -> Ended<Fault, S>
    ensures { S.ready store → Unused table → Left (Use (quota_shape p (cached_shape (S.meaning store).shape)) word (S.meaning store) result.answer (S.meaning result.back)) (S.ready result.back) }
{
    let Ended { answer, back } = use_one(Quota::new(Cache::new(store, table), p), word);
    match back.end().close() {
        Ok(back) => Ended { answer, back },
        Err(Refused { cause, back }) => Ended {
            answer: Err(cause.deeper()),
            back,
        },
    }
}
