// A cache over a quota over a paged store.
ghost use Rattle.store.specs.Calls.{Left};
ghost use Rattle.quota.specs.Quota.{quota_shape};
ghost use Rattle.cache.specs.Lines.{Unused};
ghost use Rattle.cache.specs.Cache.{cached_shape};
ghost use Rattle.piles.specs.One.{Use};
ghost use Rattle.piles.specs.Pages.{OverPages, LinesPages};

use crate::fresh::{over_fresh, with_lines};
use crate::one::{Ended, use_one};
use cache::cached::Cache;
use cache::line::LineTable;
use paged::paged::Frames;
use quota::quota::Quota;
use store::blocks::Store;
use store::fault::{Fault, Refused, Unmade};
use stores::lent::Runs;

// Uses one block of a store through a cache. A fault met in closing is the answer.
pub fn cached_one<S: Store>(store: S, table: LineTable, word: u64) -> Ended<Fault, S>
    ensures { S.ready store → Unused table → Left (Use (cached_shape (S.meaning store).shape) word (S.meaning store) result.answer (S.meaning result.back)) (S.ready result.back) }
{
    let Ended { answer, back } = use_one(Cache::new(store, table), word);
    // by a match, as in `through_cache`, where the cause is one deeper
    match back.close() {
        Ok(back) => Ended { answer, back },
        Err(Refused { cause, back }) => Ended {
            answer: Err(cause),
            back,
        },
    }
}

// Uses one block of a store through a quota of q blocks and a cache above it.
pub fn cached_quota<S: Store>(store: S, table: LineTable, q: u64, word: u64) -> Ended<Fault, S>
    ensures { S.ready store → Unused table → Left (Use (cached_shape (quota_shape q (S.meaning store).shape)) word (S.meaning store) result.answer (S.meaning result.back)) (S.ready result.back) }
{
    let Ended { answer, back } = cached_one(Quota::new(store, q), table, word);
    Ended {
        answer,
        back: back.end(),
    }
}

// Puts a word into a block of a fresh paged store through a quota of q blocks and a cache of so many lines above it,
// then ends all: the word stands in the lent words.
#[tactic(auto, using(crate::proofs::Lined::with_lines))]
pub fn cache_over_quota_over_paged<'a>(
    runs: Runs<'a, Frames<'a>>,
    width: u32,
    lines: u32,
    q: u64,
    word: u64,
) -> Ended<Unmade, Runs<'a, Frames<'a>>>
    ensures { LinesPages q lines width word runs.entry result.answer result.back }
{
    with_lines(runs.layout.heap, lines, runs, |table, runs| {
        over_paged(runs, width, table, q, word)
    })
}

// The same with a table of lines that were never used.
pub fn over_paged<'a>(
    runs: Runs<'a, Frames<'a>>,
    width: u32,
    table: LineTable,
    q: u64,
    word: u64,
) -> Ended<Unmade, Runs<'a, Frames<'a>>>
    ensures { Unused table → OverPages q width word runs.entry result.answer result.back }
{
    over_fresh(runs, width, |store| {
        cached_quota(store, table, q, word).unmade()
    })
}
