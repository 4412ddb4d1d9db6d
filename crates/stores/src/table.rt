// A table store: the words of all blocks stand one block after another.
ghost use Rattle.std.specs.Prelude.{◌≡◌, ◌≤◌};
ghost use Rattle.stores.specs.Table.{most_blocks};
ghost use Rattle.stores.specs.Rows.{rows_plan};
ghost use Rattle.stores.specs.Laws.Tables.{rows_lawful};

use crate::layout::{Layout, check_width};
use crate::lent::LentStore;
use crate::runs::clear_words;
use store::blocks::LARGEST_BLOCK;
use store::fault::Fault;

// The words of block b stand from (b - 1) * width on.
#[derive(Clone, Copy, PartialEq, Eq, Debug)]
pub struct Rows;

pub type TableStore<'a> = LentStore<'a, Rows>;

// The most whole blocks that so many marks and words hold: of blocks without words, none.
#[tactic(auto, unfolding(store::specs::Meaning::limit))]
pub fn most(width: u32, marks: usize, words: usize) -> u32
    ensures { result ≡ most_blocks width marks words }
{
    words
        .checked_div(width as usize)
        .unwrap_or(0)
        .min(marks)
        .min(LARGEST_BLOCK as usize) as u32
}

impl Layout for Rows {
    type Cause = Fault;

    ghost plan = { λ _. rows_plan };

    ghost lawful = { λ _. rows_lawful };

    fn place_of(&self, width: u32, slot: u32, place: u32) -> usize {
        slot as usize * width as usize + place as usize
    }

    fn wipe(&self, words: &mut [u64], width: u32, slot: u32) {
        clear_words(words, slot as usize * width as usize, width as usize);
    }

    fn measure(&self, width: u32, marks: usize, words: usize) -> Result<u32, Fault> {
        check_width(width)?;
        Ok(most(width, marks, words))
    }
}

#[cfg(test)]
mod tests {
    use super::*;
    use crate::lent::Runs;
    use std::process::Abort;
    use std::test::Fail;
    use store::blocks::Store;

    // Here and in the tests of piles: a maker for all would tell a proof less of what was lent than the fields do.
    fn runs<'a>(words: &'a mut [u64], marks: &'a mut [u8]) -> Runs<'a, Rows> {
        Runs {
            words,
            marks,
            layout: Rows,
        }
    }

    #[test]
    fn keeps_words(rt: HostRuntime) -> Result<(), Fail> {
        let mut words = [7; 13];
        let mut marks = [9; 4];
        let Ok(mut store) = TableStore::fresh(runs(&mut words, &mut marks), 4) else {
            return Err(Fail::new("unfit"));
        };
        let block = store.take()?;
        store.set(block, 2, 5)?;
        assert_eq!(rt; store.get(block, 2)?, 5);
        let stock = store.stock()?;
        assert_eq!(rt; stock.granted, 1);
        assert_eq!(rt; stock.capacity, 3);
        Ok(())
    }

    #[test]
    fn grants_again(rt: HostRuntime) -> Result<(), Fail> {
        let mut words = [7; 2];
        let mut marks = [1; 1];
        let Ok(mut store) = TableStore::reopen(runs(&mut words, &mut marks), 2) else {
            return Err(Fail::new("unfit"));
        };
        assert_eq!(rt; store.get(1, 0)?, 7);
        store.give_back(1)?;
        assert_eq!(rt; store.take()?, 1);
        assert_eq!(rt; store.get(1, 0)?, 0);
        Ok(())
    }

    fn misfit(rt: &impl Abort, width: u32) -> Result<(), Fail> {
        let mut words = [0; 4];
        let mut marks = [0; 4];
        match TableStore::fresh(runs(&mut words, &mut marks), width) {
            Ok(_) => Err(Fail::new("made")),
            Err(unfit) => {
                assert_eq!(rt; unfit.cause.refusal.number(), 10);
                Ok(())
            },
        }
    }

    #[test]
    fn refuses_widths(rt: HostRuntime) -> Result<(), Fail> {
        misfit(&rt, 0)?;
        misfit(&rt, 513)
    }

    #[test]
    fn has_no_room(rt: HostRuntime) -> Result<(), Fail> {
        let mut words = [0; 4];
        let mut marks = [0; 4];
        let Ok(mut store) = TableStore::fresh(runs(&mut words, &mut marks), 5) else {
            return Err(Fail::new("unfit"));
        };
        match store.take() {
            Ok(_) => Err(Fail::new("granted")),
            Err(fault) => {
                assert_eq!(rt; fault.refusal.number(), 6);
                Ok(())
            },
        }
    }
}
