// Two quotas over a table store.
ghost use Rattle.store.specs.Calls.{Left};
ghost use Rattle.quota.specs.Quota.{quota_shape};
ghost use Rattle.piles.specs.One.{Use};
ghost use Rattle.piles.specs.Runs.{TwoQuotas};

use crate::fresh::over_fresh;
use crate::one::{Ended, use_one};
use quota::quota::Quota;
use store::blocks::Store;
use store::fault::Fault;
use stores::lent::Runs;
use stores::table::Rows;

// Puts a word into a block of a fresh table store under a quota of q blocks and one of p above it, then ends all.
pub fn two_quotas<'a>(
    runs: Runs<'a, Rows>,
    width: u32,
    p: u64,
    q: u64,
    word: u64,
) -> Ended<Fault, Runs<'a, Rows>>
    ensures { TwoQuotas p q width word runs.entry result.answer result.back }
{
    over_fresh(runs, width, |store| under_two(store, p, q, word))
}

// Uses one block of a store through a quota of q blocks and one of p above it.
pub fn under_two<S: Store>(store: S, p: u64, q: u64, word: u64) -> Ended<Fault, S>
    ensures { S.ready store → Left (Use (quota_shape p (quota_shape q (S.meaning store).shape)) word (S.meaning store) result.answer (S.meaning result.back)) (S.ready result.back) }
{
    let Ended { answer, back } = use_one(Quota::new(Quota::new(store, q), p), word);
    Ended {
        answer,
        back: back.end().end(),
    }
}

#[cfg(test)]
mod tests {
    use super::*;

    // As in the tests of the table store: a maker for all would tell a proof less of what was lent than the fields do.
    fn runs<'a>(words: &'a mut [u64], marks: &'a mut [u8]) -> Runs<'a, Rows> {
        Runs {
            words,
            marks,
            layout: Rows,
        }
    }

    // The answer under quotas p and q over room for three blocks, as a word or as the depth of the refusal.
    fn answer(p: u64, q: u64) -> Result<u64, u64> {
        let mut words = [9; 7];
        let mut marks = [1; 4];
        two_quotas(runs(&mut words, &mut marks), 2, p, q, 5)
            .answer
            .map_err(|fault| fault.depth)
    }

    #[test]
    fn tells_depth(rt: HostRuntime) {
        assert!(rt; answer(1, 1) == Ok(5));
        assert!(rt; answer(0, 1) == Err(1));
        assert!(rt; answer(1, 0) == Err(2));
    }

    #[test]
    fn leaves_word(rt: HostRuntime) {
        let mut words = [9; 7];
        let mut marks = [1; 4];
        let runs = two_quotas(runs(&mut words, &mut marks), 2, 3, 3, 5).back;
        assert!(rt; runs.words.len() == 7);
        assert_eq!(rt; runs.words[0], 5);
        assert_eq!(rt; runs.words[1], 0);
    }
}
