// A write-back cache over any store: a changed line goes down when it is evicted or the cache is closed.
ghost use Rattle.std.specs.Prelude.{◌≡◌, ◌<◌, IfOk, vec_len};
ghost use Rattle.store.specs.Calls.{Take, Give, Get, Set, Stocked, Left};
ghost use Rattle.cache.specs.Lines.{table_views, Timed, Unused};
ghost use Rattle.cache.specs.Steps.{Ready, Works, Any, Up, Evicted, MadeRoom, Missing, Brought, Fetched, Has, Seats, Uses, Still, Drops, Serves, Opened, Flushed, Closes};
ghost use Rattle.cache.specs.Cache.{cached};
ghost use Rattle.cache.specs.Laws.Overlays.{cached_sound};

use crate::line::LineTable;
use crate::moves::{empty, fill, heard};
use store::blocks::{Stock, Store};
use store::fault::{Fault, Refused};

// A cache is not `Drop`: it is closed.
pub struct Cache<S> {
    store: S,
    table: LineTable,
}

impl<S: Store> Cache<S> {
    // A cache over a store, with a table of unused lines. It means what the store means, one layer higher.
    pub fn new(store: S, table: LineTable) -> Cache<S>
        ensures below { result.store ≡ store }
        ensures table { result.table ≡ table }
        ensures opened { S.ready store → Unused table → Opened (S.meaning result.store) result.table }
    {
        Cache { store, table }
    }

    // Writes every changed line, and yields the store below: where no fault was met, it has every word of the cache.
    pub fn close(mut self) -> Result<S, Refused<Fault, S>>
        ensures { Ready S.meaning S.ready self → Closes S.meaning S.ready self result }
    {
        let flushed = self.flush();
        let Cache { store, table: _ } = self;
        match flushed {
            Ok(()) => Ok(store),
            Err(cause) => Err(Refused { cause, back: store }),
        }
    }

    // Writes every changed line.
    fn flush(&mut self) -> Result<(), Fault>
        ensures { Ready S.meaning S.ready self.old → Left (Flushed (table_views self.old.table) (S.meaning self.old.store) result (S.meaning self.new.store)) (S.ready self.new.store) }
    {
        let Cache { store, table } = self;
        heard(store, table.lost).map_err(Fault::deeper)?;
        for line in table.lines.iter_mut() {
            empty(store, line).map_err(Fault::deeper)?;
        }
        Ok(())
    }

    // Frees the line that was longest unused.
    // Here and below a line is named by its number, which is in the table: of a line that were lent in the answer, the
    // contract would have to tell its later value too.
    fn evict(&mut self) -> Result<usize, Fault>
        ensures within { IfOk result (λ i. i < vec_len self.new.table.lines) }
        ensures room { MadeRoom self.old.table result self.new.table }
        ensures timed { Timed self.old.table → Timed self.new.table }
        ensures works { Works S.meaning S.ready Up (Evicted result) self.old self.new }
    {
        let i = self.table.oldest();
        let out = empty(&mut self.store, self.table.line(i));
        self.table.note(out)?;
        Ok(i)
    }

    // Brings a block up into the line that was longest unused.
    fn bring(&mut self, block: u32) -> Result<usize, Fault>
        ensures within { IfOk result (λ i. i < vec_len self.new.table.lines) }
        ensures room { MadeRoom self.old.table result self.new.table }
        ensures timed { Timed self.old.table → Timed self.new.table }
        ensures works { Works S.meaning S.ready (Missing block) (Brought block result) self.old self.new }
    {
        let i = self.evict()?;
        let read = fill(&mut self.store, block, self.table.line(i));
        self.table.note(read)?;
        Ok(i)
    }

    // The line that has this word. Where some line has it, no call is made below.
    fn fetch(&mut self, block: u32, place: u32) -> Result<usize, Fault>
        ensures within { IfOk result (λ i. i < vec_len self.new.table.lines) }
        ensures hit { Has self.old.table block place → self.new ≡ self.old }
        ensures seats { Ready S.meaning S.ready self.old → Seats self.old.table result self.new.table }
        ensures timed { Timed self.old.table → Timed self.new.table }
        ensures works { Works S.meaning S.ready Any (Fetched block place result) self.old self.new }
    {
        if let Some(i) = self.table.hit(block, place) {
            return Ok(i);
        }
        self.table.note(self.store.get(block, place))?;
        self.bring(block)
    }
}

impl<S: Store> Store for Cache<S> {
    ghost meaning = { λ s. cached (table_views s.table) (S.Store.meaning s.store) };

    ghost ready = { Ready S.Store.meaning S.Store.ready };

    ghost sound = { λ s r. cached_sound (S.Store.sound s.store r.0) r.1 };

    fn take(&mut self) -> Result<u32, Fault>
        ensures keeps { Serves S.meaning S.ready Take self.old result self.new }
        ensures still { Still self.old.table self.new.table }
    {
        self.table.note(self.store.take())
    }

    fn give_back(&mut self, block: u32) -> Result<(), Fault>
        ensures keeps { Serves S.meaning S.ready (Give block) self.old result self.new }
        ensures drops { Ready S.meaning S.ready self.old → Drops block self.old.table result self.new.table }
    {
        self.table.note(self.store.give_back(block))?;
        if let Some(i) = self.table.find(block) {
            self.table.line(i).clear();
        }
        Ok(())
    }

    fn get(&mut self, block: u32, place: u32) -> Result<u64, Fault>
        ensures keeps { Serves S.meaning S.ready (Get block place) self.old result self.new }
        ensures hit { Has self.old.table block place → self.new.store ≡ self.old.store }
        ensures uses { Ready S.meaning S.ready self.old → Uses block self.old.table result self.new.table }
    {
        let i = self.fetch(block, place)?;
        Ok(self.table.used(i).word(place))
    }

    fn set(&mut self, block: u32, place: u32, word: u64) -> Result<(), Fault>
        ensures keeps { Serves S.meaning S.ready (Set block place word) self.old result self.new }
        ensures hit { Has self.old.table block place → self.new.store ≡ self.old.store }
        ensures uses { Ready S.meaning S.ready self.old → Uses block self.old.table result self.new.table }
    {
        let i = self.fetch(block, place)?;
        self.table.used(i).put(place, word);
        Ok(())
    }

    fn stock(&mut self) -> Result<Stock, Fault>
        ensures keeps { Serves S.meaning S.ready Stocked self.old result self.new }
        ensures still { Still self.old.table self.new.table }
    {
        self.table.note(self.store.stock())
    }
}
