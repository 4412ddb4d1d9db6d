// Tests of stores at their limits, of one opened again, and of a quota over a store that is in use.
#![tactic(auto)]

#[cfg(test)]
mod tests {
    use quota::quota::Quota;
    use std::process::Abort;
    use std::test::Fail;
    use store::blocks::{LARGEST_BLOCK, Stock, Store};
    use store::fault::{Fault, Refusal};
    use stores::lent::Runs;
    use stores::table::{Rows, TableStore};

    // Where the word and the mark of the largest block stand, for blocks of one word.
    const LAST: usize = LARGEST_BLOCK as usize - 1;

    #[test]
    fn grants_the_largest_block(rt: HostRuntime) -> Result<(), Fail> {
        let mut words = vec![in rt.alloc(); 7; LAST + 3]?;
        let mut marks = vec![in rt.alloc(); 9; LAST + 3]?;
        marks[LAST] = 0;
        takes_the_last(&rt, &mut words, &mut marks)?;
        assert_eq!(rt; words.get(LAST).copied(), Some(5));
        assert_eq!(rt; words.get(LAST + 1).copied(), Some(7));
        assert_eq!(rt; marks.get(LAST + 1).copied(), Some(9));
        Ok(())
    }

    // Takes the last block of a store of single words, where all others are granted.
    fn takes_the_last(rt: &impl Abort, words: &mut [u64], marks: &mut [u8]) -> Result<(), Fail> {
        let runs = Runs {
            words,
            marks,
            layout: Rows,
        };
        let Ok(mut store) = TableStore::reopen(runs, 1) else {
            return Err(Fail::new("unfit"));
        };
        assert_eq!(rt; store.take(), Ok(LARGEST_BLOCK));
        assert_eq!(rt; store.take(), Err(Fault::own(Refusal::NoRoom, 0)));
        assert_eq!(rt; store.set(LARGEST_BLOCK, 0, 5), Ok(()));
        assert_eq!(rt;
            store.get(LARGEST_BLOCK + 1, 0),
            Err(Fault::own(Refusal::NotGranted, LARGEST_BLOCK + 1))
        );
        Ok(())
    }

    #[test]
    fn goes_on_reopened(rt: HostRuntime) -> Result<(), Fail> {
        let mut words = [7; 7];
        let mut marks = [9; 4];
        let runs = Runs {
            words: &mut words,
            marks: &mut marks,
            layout: Rows,
        };
        let Ok(mut store) = TableStore::fresh(runs, 2) else {
            return Err(Fail::new("unfit"));
        };
        assert_eq!(rt; store.take(), Ok(1));
        assert_eq!(rt; store.take(), Ok(2));
        assert_eq!(rt; store.set(2, 1, 5), Ok(()));
        assert_eq!(rt; store.give_back(1), Ok(()));
        let Ok(mut store) = store.reopened() else {
            return Err(Fail::new("unfit again"));
        };
        assert_eq!(rt; store.get(2, 1), Ok(5));
        assert_eq!(rt; store.get(1, 0), Err(Fault::own(Refusal::NotGranted, 1)));
        assert_eq!(rt; store.take(), Ok(1));
        assert_eq!(rt; store.take(), Ok(3));
        Ok(())
    }

    #[test]
    fn allows_no_more_than_granted(rt: HostRuntime) -> Result<(), Fail> {
        let mut words = [7; 3];
        let mut marks = [9; 3];
        let runs = Runs {
            words: &mut words,
            marks: &mut marks,
            layout: Rows,
        };
        let Ok(mut store) = TableStore::fresh(runs, 1) else {
            return Err(Fail::new("unfit"));
        };
        assert_eq!(rt; store.take(), Ok(1));
        assert_eq!(rt; store.take(), Ok(2));
        let mut quota = Quota::new(store, 1);
        let stock = Stock {
            width: 1,
            granted: 2,
            capacity: 1,
        };
        assert_eq!(rt; quota.stock(), Ok(stock));
        assert_eq!(rt; quota.take(), Err(Fault::own(Refusal::NoRoom, 0)));
        assert_eq!(rt; quota.end().take(), Ok(3));
        Ok(())
    }
}
