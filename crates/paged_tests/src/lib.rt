// Tests of the paged store.
#![tactic(auto)]

#[cfg(test)]
mod tests {
    use paged::paged::{Frames, PagedStore};
    use std::alloc::Global;
    use std::process::Abort;
    use std::test::Fail;
    use store::blocks::Store;
    use store::fault::{Fault, Unmade};
    use stores::lent::Runs;

    const MAP: [u32; 16] = [16, 3, 9, 0, 12, 5, 1, 7, 15, 2, 8, 4, 10, 6, 11, 13];

    fn runs<'a>(
        heap: Global,
        words: &'a mut [u64],
        marks: &'a mut [u8],
        map: &'a [u32],
    ) -> Runs<'a, Frames<'a>> {
        Runs {
            words,
            marks,
            layout: Frames { map, heap },
        }
    }

    // The number of a refusal.
    fn number<T: Drop>(answer: Result<T, Fault>) -> Option<u32> {
        answer.err().map(|fault| fault.refusal.number())
    }

    // Blocks of such a width: the last word of block 2 stands at so many words from the start.
    fn scatters(
        rt: &impl Abort,
        heap: Global,
        width: u32,
        last: u32,
        capacity: u32,
        at: usize,
    ) -> Result<(), Fail> {
        let mut words = [7; 1100];
        let mut marks = [9; 16];
        let Ok(mut store) = PagedStore::fresh(runs(heap, &mut words, &mut marks, &MAP), width)
        else {
            return Err(Fail::new("unfit"));
        };
        assert_eq!(rt; store.stock()?.capacity, capacity);
        assert_eq!(rt; store.take()?, 1);
        assert_eq!(rt; store.take()?, 2);
        assert_eq!(rt; number(store.set(2, width, 6)), Some(9));
        store.set(2, last, 5)?;
        let runs = store.into_runs();
        assert_eq!(rt; runs.words.get(at).copied(), Some(5));
        Ok(())
    }

    #[test]
    fn scatters_words(rt: HostRuntime) -> Result<(), Fail> {
        scatters(&rt, rt.alloc(), 1, 0, 16, 3 * 64)?;
        scatters(&rt, rt.alloc(), 64, 63, 16, 3 * 64 + 63)?;
        scatters(&rt, rt.alloc(), 65, 64, 8, 0)?;
        scatters(&rt, rt.alloc(), 512, 511, 2, 13 * 64 + 63)
    }

    #[test]
    fn reopens(rt: HostRuntime) -> Result<(), Fail> {
        let mut words = [7; 320];
        let mut marks = [0, 1, 9];
        let map = [4, 0, 2, 1, 4];
        let Ok(mut store) = PagedStore::reopen(runs(rt.alloc(), &mut words, &mut marks, &map), 65)
        else {
            return Err(Fail::new("unfit"));
        };
        assert_eq!(rt; number(store.give_back(1)), Some(8));
        assert_eq!(rt; store.get(2, 64)?, 7);
        assert_eq!(rt; store.take()?, 1);
        assert_eq!(rt; number(store.take()), Some(6));
        let runs = store.into_runs();
        assert_eq!(rt; runs.marks.get(0).copied(), Some(1));
        assert_eq!(rt; runs.marks.get(2).copied(), Some(9));
        assert_eq!(rt; runs.words.get(64).copied(), Some(7));
        Ok(())
    }

    // Whether a store is made of a map and a width over four frames, or the number of the refusal; none for want of memory.
    fn made(heap: Global, map: [u32; 3], width: u32) -> Result<(), Option<u32>> {
        let mut words = [0; 300];
        let mut marks = [0; 4];
        match PagedStore::fresh(runs(heap, &mut words, &mut marks, &map), width) {
            Ok(_) => Ok(()),
            Err(unfit) => match unfit.cause {
                Unmade::Refused(fault) => Err(Some(fault.refusal.number())),
                Unmade::NoMemory => Err(None),
            },
        }
    }

    #[test]
    fn refuses_maps(rt: HostRuntime) {
        assert_eq!(rt; made(rt.alloc(), [0, 3, 0], 64), Err(Some(10)));
        assert_eq!(rt; made(rt.alloc(), [0, 1, 4], 64), Err(Some(10)));
        assert_eq!(rt; made(rt.alloc(), [0, 3, 3], 65), Ok(()));
        assert_eq!(rt; made(rt.alloc(), [0, 1, 2], 0), Err(Some(10)));
        assert_eq!(rt; made(rt.alloc(), [0, 1, 2], 513), Err(Some(10)));
    }

    #[test]
    fn has_no_room(rt: HostRuntime) -> Result<(), Fail> {
        let mut words = [0; 64];
        let mut marks = [0; 1];
        let Ok(mut store) = PagedStore::fresh(runs(rt.alloc(), &mut words, &mut marks, &[0]), 65)
        else {
            return Err(Fail::new("unfit"));
        };
        assert_eq!(rt; number(store.take()), Some(6));
        Ok(())
    }
}
