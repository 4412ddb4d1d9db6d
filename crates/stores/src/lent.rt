// A block store in two lent runs: the words of all blocks, and a mark for each block. A layout tells where the words of
// each block stand. A word past the end of the run reads as 0.
ghost use Rattle.std.specs.Prelude.{◌≡◌, slice_index};
ghost use Rattle.store.specs.Calls.{Keeps, Take, Give, Get, Set, Stocked};
ghost use Rattle.stores.specs.Touched.{Untouched, TakeLeaves, GiveLeaves, SetLeaves};
ghost use Rattle.stores.specs.Opened.{means, Ready, FreshOr, ReopenedOr, StillMeans, OpenAgain};
ghost use Rattle.stores.specs.Steps.{Put, Wiping, Granting, OverOr, LocatedIn};
ghost use Rattle.stores.specs.Laws.Plans.{plan_sound};

use crate::grants::Grants;
use crate::layout::Layout;
use crate::runs::put;
use store::blocks::{Stock, Store};
use store::fault::{Fault, Refusal, Refused};

#[derive(Drop)]
pub struct LentStore<'a, L> {
    words: &'a mut [u64],
    grants: Grants<'a>,
    width: u32,
    layout: L,
}

// The lent runs, with the layout of the words. The width is no part of them: they outlive a store, and may be opened with
// another.
#[derive(Drop)]
pub struct Runs<'a, L> {
    pub words: &'a mut [u64],
    pub marks: &'a mut [u8],
    pub layout: L,
}

impl<'a, L: Layout> LentStore<'a, L> {
    // A store with no grants. The words stay as they are, and so do marks past its capacity.
    pub fn fresh(
        runs: Runs<'a, L>,
        width: u32,
    ) -> Result<LentStore<'a, L>, Refused<L::Cause, Runs<'a, L>>>
        ensures { FreshOr L.plan width runs.entry.layout runs.entry.marks.now runs.entry.words.now result }
    {
        let mut store = LentStore::over(runs, width)?;
        store.grants.clear();
        Ok(store)
    }

    // A store over runs as they were left: its grants are those that the marks tell.
    #[tactic(auto, using(crate::proofs::LentCalls::made_again))]
    pub fn reopen(
        runs: Runs<'a, L>,
        width: u32,
    ) -> Result<LentStore<'a, L>, Refused<L::Cause, Runs<'a, L>>>
        ensures { ReopenedOr L.plan width runs.entry.layout runs.entry.marks.now runs.entry.words.now result }
    {
        let mut store = LentStore::over(runs, width)?;
        store.grants.recount();
        Ok(store)
    }

    // Ends the store, and yields its runs. Those of a ready store, opened again with its width, mean what it meant, unless
    // what is no fault of the runs refuses them.
    pub fn into_runs(self) -> Runs<'a, L>
        ensures words { result.words.now ≡ self.entry.words.now }
        ensures marks { result.marks.now ≡ self.entry.grants.marks.now }
        ensures layout { result.layout ≡ self.entry.layout }
        ensures again { Ready L.plan self.entry → OpenAgain L.plan self.entry result }
    {
        let LentStore {
            words,
            grants,
            width: _,
            layout,
        } = self;
        Runs {
            words,
            marks: grants.marks,
            layout,
        }
    }

    // Ends the store, and opens its runs again.
    pub fn reopened(self) -> Result<LentStore<'a, L>, Refused<L::Cause, Runs<'a, L>>>
        ensures { Ready L.plan self.entry → StillMeans L.plan self.entry result }
    {
        let width = self.width;
        LentStore::reopen(self.into_runs(), width)
    }

    // A store over the runs as they are, before its grants are known.
    fn over(
        runs: Runs<'a, L>,
        width: u32,
    ) -> Result<LentStore<'a, L>, Refused<L::Cause, Runs<'a, L>>>
        ensures { OverOr L.plan width runs.entry.layout runs.entry.marks.now runs.entry.words.now result }
    {
        let measured = runs
            .layout
            .measure(width, runs.marks.len(), runs.words.len());
        match measured {
            Ok(capacity) => {
                let Runs {
                    words,
                    marks,
                    layout,
                } = runs;
                Ok(LentStore {
                    words,
                    grants: Grants::over(marks, capacity),
                    width,
                    layout,
                })
            }
            Err(cause) => Err(Refused { cause, back: runs }),
        }
    }

    // Where a word of a granted block stands in the run.
    #[tactic(auto, using(crate::specs::Laws::Laid::used_parts))]
    fn locate(&self, block: u32, place: u32) -> Result<usize, Fault>
        ensures { LocatedIn L.plan self.now block place result }
    {
        if !self.grants.has(block) {
            return Err(Fault::own(Refusal::NotGranted, block));
        }
        if place >= self.width {
            return Err(Fault::own(Refusal::Outside, block));
        }
        Ok(self.layout.place_of(self.width, block - 1, place))
    }

    fn word(&self, at: usize) -> u64
        ensures { result ≡ slice_index self.now.words.now at }
    {
        self.words.get(at).copied().unwrap_or(0)
    }

    fn put(&mut self, at: usize, word: u64)
        ensures { Put self.old at word self.new }
    {
        put(self.words, at, word);
    }

    // Clears the words of the block in a slot.
    fn wipe(&mut self, slot: u32)
        ensures { Wiping L.plan self.old slot self.new }
    {
        self.layout.wipe(self.words, self.width, slot);
    }

    // Grants the block in a free slot, its words cleared.
    fn grant(&mut self, slot: u32)
        ensures { Granting L.plan self.old slot self.new }
    {
        self.wipe(slot);
        self.grants.add(slot);
    }
}

impl<'a, L: Layout> Store for LentStore<'a, L> {
    ghost meaning = { means L.plan };

    ghost ready = { Ready L.plan };

    ghost sound = { λ s f. plan_sound (L.Layout.lawful s.layout) f };

    fn take(&mut self) -> Result<u32, Fault>
        ensures keeps { Keeps (means L.plan) (Ready L.plan) Take self.old result self.new }
        ensures runs { TakeLeaves L.plan self.old result self.new }
    {
        let Some(slot) = self.grants.free_slot() else {
            return Err(Fault::own(Refusal::NoRoom, 0));
        };
        self.grant(slot);
        Ok(slot + 1)
    }

    #[tactic(auto, using(crate::specs::Laws::Laid::used_parts))]
    fn give_back(&mut self, block: u32) -> Result<(), Fault>
        ensures keeps { Keeps (means L.plan) (Ready L.plan) (Give block) self.old result self.new }
        ensures runs { GiveLeaves block self.old result self.new }
    {
        if !self.grants.has(block) {
            return Err(Fault::own(Refusal::NotGranted, block));
        }
        self.grants.remove(block - 1);
        Ok(())
    }

    #[tactic(auto, using(crate::proofs::LaidCalls::got))]
    fn get(&mut self, block: u32, place: u32) -> Result<u64, Fault>
        ensures keeps { Keeps (means L.plan) (Ready L.plan) (Get block place) self.old result self.new }
        ensures runs { Untouched self.old self.new }
    {
        let at = self.locate(block, place)?;
        Ok(self.word(at))
    }

    fn set(&mut self, block: u32, place: u32, word: u64) -> Result<(), Fault>
        ensures keeps { Keeps (means L.plan) (Ready L.plan) (Set block place word) self.old result self.new }
        ensures runs { SetLeaves L.plan block place word self.old result self.new }
    {
        let at = self.locate(block, place)?;
        self.put(at, word);
        Ok(())
    }

    fn stock(&mut self) -> Result<Stock, Fault>
        ensures keeps { Keeps (means L.plan) (Ready L.plan) Stocked self.old result self.new }
        ensures runs { Untouched self.old self.new }
    {
        Ok(Stock {
            width: self.width,
            granted: self.grants.granted,
            capacity: self.grants.capacity,
        })
    }
}
