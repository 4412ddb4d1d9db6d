// A block store in lent runs: words, a mark for each block, and a map. The words are cut into frames of 64, counted
// from 0, and each block has as many whole frames as its width needs. The map names them, those of block 1 first.
// No entry past those of the store's blocks is read, nor a mark past them, and none of the words past the last whole frame.
ghost use Rattle.paged.specs.Opened.{frames_plan};
ghost use Rattle.paged.specs.Laws.Frames.{frames_lawful};

use crate::frames::{FRAME, apt, frames_of, word_place};
use std::alloc::Global;
use store::fault::{Fault, Refusal, Unmade};
use stores::layout::{Layout, check_width};
use stores::lent::LentStore;
use stores::table::most;

// Block b has the entries of the map from (b - 1) times its frames on. `heap` has the memory that checks the map.
#[derive(Clone, Copy)]
pub struct Frames<'a> {
    pub map: &'a [u32],
    pub heap: Global,
}

pub type PagedStore<'a> = LentStore<'a, Frames<'a>>;

impl<'a> Layout for Frames<'a> {
    type Cause = Unmade;

    ghost plan = { λ f. frames_plan f.map.now };

    ghost lawful = { λ f. frames_lawful f.map.now };

    fn place_of(&self, width: u32, slot: u32, place: u32) -> usize {
        word_place(self.map, width, slot, place)
    }

    // A width is refused before memory is asked for.
    fn measure(&self, width: u32, marks: usize, words: usize) -> Result<u32, Unmade> {
        check_width(width)?;
        let frames = frames_of(width);
        let capacity = most(frames, marks, self.map.len());
        let named = &self.map[..capacity as usize * frames as usize];
        if !apt(self.heap, named, words / FRAME)? {
            return Err(Unmade::Refused(Fault::own(Refusal::Misfit, 0)));
        }
        Ok(capacity)
    }
}
