// Stores at the bottom of a pile, told by what they are lent.
use crate::call::{Call, Session};
use crate::layers::{Layers, play};
use paged::paged::{Frames, PagedStore};
use std::alloc::{AllocError, Global};
use store::fault::Unmade;
use stores::lent::Runs;
use stores::table::{Rows, TableStore};

// What each word and each mark is as it is lent.
const WORD: u64 = 7;

const MARK: u8 = 9;

// The words of a frame.
const FRAME: usize = 64;

// The blocks' width, how many words and marks are lent, and where the words stand.
#[derive(Clone, Copy)]
pub(crate) struct Bottom {
    pub(crate) width: u32,
    pub(crate) words: usize,
    pub(crate) marks: usize,
    pub(crate) spread: Spread,
}

// Block after block, or in frames.
#[derive(Clone, Copy)]
pub(crate) enum Spread {
    Rows,
    Frames(Map),
}

// A map of so many entries. They name the frames from `first` down to 0, and from there on all name `past`.
#[derive(Clone, Copy)]
pub(crate) struct Map {
    pub(crate) entries: usize,
    pub(crate) first: u32,
    pub(crate) past: u32,
}

impl Map {
    // The entries, from the first on.
    fn list(self, heap: Global) -> Result<Vec<u32>, AllocError> {
        let mut list = vec![in heap; self.past; self.entries]?;
        for (entry, frame) in list.iter_mut().zip((0..=self.first).rev()) {
            *entry = frame;
        }
        Ok(list)
    }
}

// How many elements of a run from such a one on are as they were lent.
fn spared<T: Copy + PartialEq>(run: &[T], from: usize, lent: T) -> usize {
    run.iter()
        .skip(from)
        .filter(|there| **there == lent)
        .count()
}

// What layers over a table store answer, each to a part of the calls, and what is spared of its runs. The store is made for
// the first, and its runs are opened again for each that follows. It and the next are two functions: one over any layout
// was tried, and proves, but not its call with a lent map, where the borrow checker's part finds two types that differ.
fn over_table(
    heap: Global,
    bottom: Bottom,
    layers: [Layers; 3],
    calls: &[Vec<Call>],
) -> Result<String, AllocError> {
    let mut words = vec![in heap; WORD; bottom.words]?;
    let mut marks = vec![in heap; MARK; bottom.marks]?;
    let mut session = Session::new(heap);
    let mut capacity = 0;
    for (i, (layers, calls)) in layers.iter().zip(calls).enumerate() {
        let runs = Runs {
            words: &mut words,
            marks: &mut marks,
            layout: Rows,
        };
        let opened = match i {
            0 => TableStore::fresh(runs, bottom.width),
            _ => TableStore::reopen(runs, bottom.width),
        };
        let played = match opened {
            Ok(store) => play(heap, *layers, store, calls, &mut session),
            Err(unfit) => Err(Unmade::from(unfit.cause)),
        };
        capacity = session.ended(played)?;
    }
    let used = capacity.saturating_mul(bottom.width as usize);
    session.spared(spared(&marks, capacity, MARK), spared(&words, used, WORD))?;
    Ok(session.end())
}

// The same over a paged store.
fn over_pages(
    heap: Global,
    bottom: Bottom,
    map: Map,
    layers: [Layers; 3],
    calls: &[Vec<Call>],
) -> Result<String, AllocError> {
    let mut words = vec![in heap; WORD; bottom.words]?;
    let mut marks = vec![in heap; MARK; bottom.marks]?;
    let map = map.list(heap)?;
    let mut session = Session::new(heap);
    let mut capacity = 0;
    for (i, (layers, calls)) in layers.iter().zip(calls).enumerate() {
        let runs = Runs {
            words: &mut words,
            marks: &mut marks,
            layout: Frames { map: &map, heap },
        };
        let opened = match i {
            0 => PagedStore::fresh(runs, bottom.width),
            _ => PagedStore::reopen(runs, bottom.width),
        };
        let played = match opened {
            Ok(store) => play(heap, *layers, store, calls, &mut session),
            Err(unfit) => Err(unfit.cause),
        };
        capacity = session.ended(played)?;
    }
    let used = match capacity {
        0 => 0,
        _ => words.len() / FRAME * FRAME,
    };
    session.spared(spared(&marks, capacity, MARK), spared(&words, used, WORD))?;
    Ok(session.end())
}

// What layers over a fresh store answer, each to a part of the calls.
pub(crate) fn over(
    heap: Global,
    bottom: Bottom,
    layers: [Layers; 3],
    calls: &[Vec<Call>],
) -> Result<String, AllocError> {
    match bottom.spread {
        Spread::Rows => over_table(heap, bottom, layers, calls),
        Spread::Frames(map) => over_pages(heap, bottom, map, layers, calls),
    }
}
