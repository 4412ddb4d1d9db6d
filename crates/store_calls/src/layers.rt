// Calls made through layers over a store.
use crate::call::{Call, Session};
use cache::cached::Cache;
use cache::line::LineTable;
use quota::quota::Quota;
use std::alloc::Global;
use store::blocks::{Stock, Store};
use store::fault::{Fault, Refused, Unmade};

// What stands over a store, the top first. Each is a type of its own, so a table can only name it.
#[derive(Clone, Copy)]
pub(crate) enum Layers {
    Bare,
    Quota(u64),
    Cache(u32),
    QuotaOverCache(u64, u32),
    CacheOverQuota(u32, u64),
}

// Makes calls on a pile, takes its layers off, from the top, and tells the stock of the store below.
fn on<P: Store, S: Store + Drop, F: FnOnce(P) -> (S, Result<(), Fault>)>(
    mut pile: P,
    calls: &[Call],
    session: &mut Session,
    take_off: F,
) -> Result<Stock, Unmade>
    requires { F.IsAlwaysCallable take_off }
{
    let made = session.answers(&mut pile, calls);
    let (mut store, ended) = take_off(pile);
    made?;
    session.taken_off(ended)?;
    Ok(store.stock()?)
}

// The store below a cache that was closed, and the fault met in that.
fn below<S>(closed: Result<S, Refused<Fault, S>>) -> (S, Result<(), Fault>) {
    match closed {
        Ok(store) => (store, Ok(())),
        Err(Refused { cause, back }) => (back, Err(cause)),
    }
}

// Makes calls on a store through layers, and tells its stock at the end.
pub(crate) fn play<S: Store + Drop>(
    heap: Global,
    layers: Layers,
    store: S,
    calls: &[Call],
    session: &mut Session,
) -> Result<Stock, Unmade> {
    match layers {
        Layers::Bare => on(store, calls, session, |store| (store, Ok(()))),
        Layers::Quota(limit) => on(Quota::new(store, limit), calls, session, |quota| {
            (quota.end(), Ok(()))
        }),
        Layers::Cache(lines) => {
            let table = LineTable::new(heap, lines)?;
            on(Cache::new(store, table), calls, session, |cache| {
                below(cache.close())
            })
        }
        Layers::QuotaOverCache(limit, lines) => {
            let table = LineTable::new(heap, lines)?;
            let pile = Quota::new(Cache::new(store, table), limit);
            on(pile, calls, session, |quota| below(quota.end().close()))
        }
        Layers::CacheOverQuota(lines, limit) => {
            let table = LineTable::new(heap, lines)?;
            let pile = Cache::new(Quota::new(store, limit), table);
            on(pile, calls, session, |cache| {
                let (quota, closed) = below(cache.close());
                (quota.end(), closed)
            })
        }
    }
}
