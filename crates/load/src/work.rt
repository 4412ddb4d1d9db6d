// A load carried out on a checkpoint index in a table store.
use crate::load::Load;
use crate::order::RANGE;
use index::index::{Created, Index};
use keys::checkpoint::Checkpoint;
use std::alloc::Global;
use std::fmt;
use store::blocks::Store;
use store::fault::{Fault, Refused};
use stores::lent::Runs;
use stores::table::{Rows, TableStore};

// The width of the blocks of a checkpoint index.
const WIDTH: usize = 242;

// Pairs inserted, cases resumed, how many of them were found, and the handles found drawn together.
#[derive(Clone, Copy)]
struct Counts {
    inserted: u64,
    resumed: u32,
    found: u32,
    checksum: u64,
}

// What was counted, and the blocks granted after it.
#[derive(Clone, Copy)]
pub struct Done {
    counts: Counts,
    granted: u32,
}

impl fmt::Display for Done {
    fn fmt<W: fmt::Write>(&self, f: &mut fmt::Formatter<W>) -> fmt::Result {
        let Counts {
            inserted,
            resumed,
            found,
            checksum,
        } = self.counts;
        writeln!(f, "{inserted} inserted")?;
        writeln!(f, "{resumed} resumed, {found} found, checksum {checksum}")?;
        write!(f, "{} blocks granted", self.granted)
    }
}

// Inserts every checkpoint of a load; its handle is its number and one million more.
fn fill<S: Store>(index: &mut Index<Checkpoint, S>, load: &Load) -> Result<(), Fault> {
    let mut number = 0;
    for _ in 0..RANGE {
        if number < load.checkpoints {
            index.insert(&load.checkpoint(number), u64::from(number) + 1_000_000)?;
        }
        number = load.order.next(number);
    }
    Ok(())
}

// Fills an index, and resumes cases, one after the other.
fn work<S: Store>(index: &mut Index<Checkpoint, S>, load: &Load) -> Result<Counts, Fault> {
    fill(index, load)?;
    let mut found: u32 = 0;
    let mut checksum: u64 = 0;
    for number in 0..load.resumes {
        if let Some(pair) = index.resume(load.asked(number))? {
            found = found.saturating_add(1);
            checksum = checksum.wrapping_mul(31).wrapping_add(pair.handle);
        }
    }
    Ok(Counts {
        inserted: index.tally()?,
        resumed: load.resumes,
        found,
        checksum,
    })
}

// The counts with what the store says after the work.
fn ended<S: Store>(store: &mut S, counts: Counts) -> Result<Done, Fault> {
    let granted = store.stock()?.granted;
    Ok(Done { counts, granted })
}

// Does the work on a new index in a store, and yields the store.
fn over<S: Store>(store: S, load: &Load) -> (Result<Done, Fault>, S) {
    match Index::create(store) {
        Err(Refused { cause, back }) => (Err(cause), back),
        Ok(
            Created {
                mut index,
                header: _,
            },
        ) => {
            let worked = work(&mut index, load);
            let mut store = index.close();
            let done = worked.and_then(|counts| ended(&mut store, counts));
            (done, store)
        }
    }
}

// Does the work in memory of the heap.
pub fn carry_out(heap: Global, load: &Load) -> anyhow::Result<Done> {
    let blocks = load.blocks();
    let mut words = vec![in heap; 0u64; blocks * WIDTH]?;
    let mut marks = vec![in heap; 0u8; blocks]?;
    let runs = Runs {
        words: &mut words,
        marks: &mut marks,
        layout: Rows,
    };
    match TableStore::fresh(runs, WIDTH as u32) {
        Ok(store) => {
            let (done, _) = over(store, load);
            Ok(done?)
        }
        Err(unfit) => Err(unfit.cause.into()),
    }
}
