// A quota on the blocks of any store: once so many are granted, it takes no more.
ghost use Rattle.std.specs.Prelude.{◌≡◌};
ghost use Rattle.quota.specs.Quota.{under};
ghost use Rattle.quota.specs.Laws.{under_sound};

use store::blocks::{Stock, Store};
use store::fault::{Fault, Refusal};

pub struct Quota<S> {
    store: S,
    limit: u64,
}

impl<S: Store> Quota<S> {
    // The store under a quota. Its blocks stay granted, even where they are more than `limit`.
    pub fn new(store: S, limit: u64) -> Quota<S>
        ensures below { result.store ≡ store }
        ensures limit { result.limit ≡ limit }
    {
        Quota { store, limit }
    }

    // Ends the quota, and yields the store below as it is.
    pub fn end(self) -> S
        ensures { result ≡ self.store }
    {
        let Quota { store, limit: _ } = self;
        store
    }
}

impl<S: Store> Store for Quota<S> {
    ghost meaning = { λ s. under s.limit (S.Store.meaning s.store) };

    ghost ready = { λ s. S.Store.ready s.store };

    ghost sound = { λ s r. under_sound s.limit (S.Store.sound s.store r) };

    fn take(&mut self) -> Result<u32, Fault> {
        let stock = self.store.stock().map_err(Fault::deeper)?;
        if u64::from(stock.granted) >= self.limit {
            return Err(Fault::own(Refusal::NoRoom, 0));
        }
        self.store.take().map_err(Fault::deeper)
    }

    fn give_back(&mut self, block: u32) -> Result<(), Fault> {
        self.store.give_back(block).map_err(Fault::deeper)
    }

    fn get(&mut self, block: u32, place: u32) -> Result<u64, Fault> {
        self.store.get(block, place).map_err(Fault::deeper)
    }

    fn set(&mut self, block: u32, place: u32, word: u64) -> Result<(), Fault> {
        self.store.set(block, place, word).map_err(Fault::deeper)
    }

    fn stock(&mut self) -> Result<Stock, Fault> {
        let stock = self.store.stock().map_err(Fault::deeper)?;
        Ok(Stock {
            capacity: u64::from(stock.capacity).min(self.limit) as u32,
            ..stock
        })
    }
}
