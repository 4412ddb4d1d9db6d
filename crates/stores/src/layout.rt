// Where the words of a store's blocks stand in a lent run.
ghost use Rattle.std.specs.Prelude.{◌≡◌};
ghost use Rattle.stores.specs.Table.{wiped};
ghost use Rattle.stores.specs.Plan.{Plan, Measured, WidthOr};
ghost use Rattle.stores.specs.Laws.Plans.{Lawful};

use crate::runs::put;
use store::blocks::WIDEST;
use store::fault::{Fault, Refusal};

pub trait Layout {
    // why no store is made
    type Cause;

    // where each word stands, how many blocks there are, and why there is no store
    ghost plan: { Self → Plan Self.Cause };

    // no two words stand in one place, and runs that suit are refused for no fault of theirs
    ghost lawful: { (l : Self) → Lawful (plan l) };

    // Where the word at a place of the block in a slot stands, for blocks of such a width.
    fn place_of(&self, width: u32, slot: u32, place: u32) -> usize
        ensures { result ≡ (plan self.now).at width slot place };

    // Clears the words of the block in a slot, place by place: a layout may scatter them. One that doesn't clears them as a
    // slice, which is several times as fast.
    fn wipe(&self, words: &mut [u64], width: u32, slot: u32)
        ensures { words.new ≡ wiped ((plan self.now).at width slot) width words.old }
    {
        for place in 0..width {
            put(words, self.place_of(width, slot, place), 0);
        }
    }

    // The most blocks of such a width in so many marks and words.
    fn measure(&self, width: u32, marks: usize, words: usize) -> Result<u32, Self::Cause>
        ensures { Measured (plan self.now) width marks words result };
}

// Refuses a width that no block has.
pub fn check_width(width: u32) -> Result<(), Fault>
    ensures { WidthOr width result }
{
    if width == 0 || width > WIDEST {
        return Err(Fault::own(Refusal::Misfit, 0));
    }
    Ok(())
}
