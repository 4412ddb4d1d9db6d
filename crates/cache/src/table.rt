// What a table of lines does by itself.
ghost use Rattle.std.specs.Borrow.{sem};
ghost use Rattle.std.specs.Prelude.{◌≡◌, ℕ, ◌<◌, ◌≤◌, vec_len, slice_index, slice_index_or};
ghost use Rattle.store.specs.Layers.{raised};
ghost use Rattle.cache.specs.Lines.{view, nth, table_views, ages, later, Made, Hits, Finds, Noted, has, set_view, free_view, goes};

use crate::line::{Line, LineTable};
use std::alloc::Global;
use store::blocks::WIDEST;
use store::fault::{Fault, Refusal, Unmade};

impl Line {
    // Whether it has words that the store below has not.
    pub(crate) fn goes(&self) -> bool
        ensures { result ≡ goes (view self.now) }
    {
        self.block != 0 && self.changed
    }

    // Whether it has the word at a place of a block.
    pub(crate) fn has(&self, block: u32, place: u32) -> bool
        ensures { result ≡ has (view self.now) block place }
    {
        self.block == block && (place as usize) < self.words.len()
    }

    // The word at a place; past its words, 0.
    pub(crate) fn word(&self, place: u32) -> u64
        ensures { result ≡ slice_index (view self.now).words place }
    {
        self.words.get(place as usize).copied().unwrap_or(0)
    }

    // Sets the word at a place, if there is one, and marks the line as changed.
    pub(crate) fn put(&mut self, place: u32, word: u64)
        ensures view { view self.new ≡ set_view (view self.old) place word }
        ensures used { self.new.used ≡ self.old.used }
    {
        self.changed = true;
        if let Some(at) = self.words.get_mut(place as usize) {
            *at = word;
        }
    }

    // Takes the block from it.
    pub(crate) fn clear(&mut self)
        ensures view { view self.new ≡ free_view (view self.old) }
        ensures used { self.new.used ≡ 0 }
    {
        self.block = 0;
        self.changed = false;
        self.used = 0;
    }
}

impl LineTable {
    ghost use Rattle.cache.specs.Lent.{LendsLine, LendsUsed};

    // A table of unused lines, each with room for the largest block.
    pub fn new(heap: Global, lines: u32) -> Result<LineTable, Unmade>
        ensures { Made lines result }
    {
        if lines == 0 || lines > 16 {
            return Err(Fault::own(Refusal::Misfit, 0).into());
        }
        let mut made = Vec::with_capacity(heap, lines as usize)?;
        for _ in 0..lines {
            let words = Vec::with_capacity(heap, WIDEST as usize)?;
            made.push_reserved(Line {
                block: 0,
                changed: false,
                used: 0,
                words,
            });
        }
        Ok(LineTable {
            lines: made,
            clock: 0,
            lost: false,
        })
    }

    // The line that has this word, unless the store below is down.
    pub(crate) fn hit(&self, block: u32, place: u32) -> Option<usize>
        ensures { Hits self.now.lost (table_views self.now) block place result }
    {
        if self.lost || block == 0 {
            return None;
        }
        self.lines.iter().position(|line| line.has(block, place))
    }

    // The first line that has this block.
    pub(crate) fn find(&self, block: u32) -> Option<usize>
        ensures { Finds (table_views self.now) block result }
    {
        self.lines.iter().position(|line| line.block == block)
    }

    // The line that was longest unused, and the first of those; there is one, so the 0 is never taken.
    pub(crate) fn oldest(&self) -> usize
        ensures within { result < vec_len self.now.lines }
        ensures least { (k : ℕ) → k < vec_len self.now.lines → slice_index (ages self.now) result ≤ slice_index (ages self.now) k }
    {
        self.lines
            .iter()
            .enumerate()
            .min_by_key(|(_, line)| line.used)
            .map_or(0, |(i, _)| i)
    }

    // Lends a line.
    pub(crate) fn line(&mut self, i: usize) -> &mut Line
        requires { i < vec_len self.old.lines }
        ensures* lent { sem 𝓛 (LendsLine self.entry i result) }
        ensures line { result.now ≡ slice_index_or self.old.lines.items i result.now }
    {
        &mut self.lines[i]
    }

    // Lends a line, marked as used now.
    pub(crate) fn used(&mut self, i: usize) -> &mut Line
        requires { i < vec_len self.old.lines }
        ensures* lent { sem 𝓛 (LendsUsed self.entry i result) }
        ensures line { view result.now ≡ nth (table_views self.old) i }
        ensures used { result.now.used ≡ later self.old.clock }
        ensures forward { self.old.clock ≤ later self.old.clock }
    {
        self.clock = self.clock.saturating_add(1);
        let now = self.clock;
        let line = self.line(i);
        line.used = now;
        line
    }

    // What the store below answered, as the cache answers; 'down' is kept in mind.
    pub(crate) fn note<T>(&mut self, r: Result<T, Fault>) -> Result<T, Fault>
        ensures answer { result ≡ raised r }
        ensures lines { self.new.lines ≡ self.old.lines }
        ensures clock { self.new.clock ≡ self.old.clock }
        ensures lost { Noted self.old.lost r self.new.lost }
    {
        if r.as_ref().is_err_and(|f| f.refusal == Refusal::Down) {
            self.lost = true;
        }
        r.map_err(Fault::deeper)
    }
}
