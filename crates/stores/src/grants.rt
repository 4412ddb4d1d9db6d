// Which blocks of a store are granted. Block b has the slot b - 1, and a lent mark there, not 0 where b is granted.
// A mark past the end of the run reads as 0.
ghost use Rattle.std.specs.Prelude.{◌≡◌, ◌<◌, slice_index};
ghost use Rattle.store.specs.Meaning.{count_to};
ghost use Rattle.stores.specs.Table.{in_use};
ghost use Rattle.stores.specs.Grants.{Adding, Removing, Clearing, Counting, FreeFrom, Free};

use crate::runs::{clear_marks, put};

// `rover` is where the next free mark is looked for first: a hint, and any value will do.
#[derive(Drop)]
pub struct Grants<'a> {
    pub marks: &'a mut [u8],
    pub capacity: u32,
    pub granted: u32,
    pub rover: u32,
}

impl<'a> Grants<'a> {
    // Marks as they are, before they are counted.
    pub fn over(marks: &'a mut [u8], capacity: u32) -> Grants<'a>
        ensures capacity { result.capacity ≡ capacity }
        ensures granted { result.granted ≡ 0 }
        ensures marks { result.marks.now ≡ marks.old }
    {
        Grants {
            marks,
            capacity,
            granted: 0,
            rover: 0,
        }
    }

    // Clears the mark of each block.
    pub fn clear(&mut self)
        ensures { Clearing self.old self.new }
    {
        clear_marks(self.marks, self.capacity as usize);
    }

    // Counts the grants anew.
    pub fn recount(&mut self)
        ensures { Counting self.old self.new }
    {
        self.granted = self.count();
    }

    fn count(&self) -> u32
        ensures { result ≡ count_to (in_use self.now.capacity self.now.marks.now) self.now.capacity }
    {
        // over the marks themselves: place by place, each tested against the end of the run, is several times as slow
        self.marks
            .iter()
            .take(self.capacity as usize)
            .filter(|mark| **mark != 0)
            .count() as u32
    }

    // Whether a block is granted.
    pub fn has(&self, block: u32) -> bool
        ensures { result ≡ in_use self.now.capacity self.now.marks.now block }
    {
        block > 0 && block <= self.capacity && self.mark(block - 1) != 0
    }

    fn mark(&self, slot: u32) -> u8
        ensures { result ≡ slice_index self.now.marks.now slot }
    {
        self.marks.get(slot as usize).copied().unwrap_or(0)
    }

    // A free slot, the first from the rover on, else the first of all.
    pub fn free_slot(&self) -> Option<u32>
        ensures { Free self.now result }
    {
        if self.granted >= self.capacity {
            return None;
        }
        match self.free_from(self.rover) {
            None => self.free_from(0),
            found => found,
        }
    }

    // The first free slot from such a one on.
    fn free_from(&self, start: u32) -> Option<u32>
        ensures { FreeFrom self.now start result }
    {
        (start..self.capacity).find(|slot| self.mark(*slot) == 0)
    }

    // Marks a free slot.
    pub fn add(&mut self, slot: u32)
        ensures { Adding self.old slot self.new }
    {
        put(self.marks, slot as usize, 1);
        self.granted = self.granted.saturating_add(1);
        self.rover = slot.saturating_add(1);
    }

    // Takes a slot's mark away.
    pub fn remove(&mut self, slot: u32)
        ensures { Removing self.old slot self.new }
    {
        put(self.marks, slot as usize, 0);
        self.granted = self.granted.saturating_sub(1);
    }
}
