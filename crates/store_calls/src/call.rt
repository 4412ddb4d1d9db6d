// Store calls, and what a store answers to them as text.
use std::alloc::{AllocError, Global};
use std::fmt;
use std::fmt::Write;
use store::blocks::{LARGEST_BLOCK, Stock, Store};
use store::fault::{Fault, Unmade};

// A call. A block is named by when it was taken: 1 is the first take that was granted.
#[derive(Clone, Copy)]
pub enum Call {
    Take,
    Give(usize),
    Get(usize, u32),
    Set(usize, u32, u64),
    Stock,
}

// What a store tells of a call that it accepts.
#[derive(Clone, Copy)]
enum Reply {
    Taken(u32),
    Done,
    Word(u64),
    Stock(Stock),
}

impl fmt::Display for Reply {
    fn fmt<W: fmt::Write>(&self, f: &mut fmt::Formatter<W>) -> fmt::Result {
        match *self {
            Reply::Taken(_) | Reply::Done => f.write_str("ok"),
            Reply::Word(word) => write!(f, "{word}"),
            Reply::Stock(stock) => write!(
                f,
                "{} {} {}",
                stock.width, stock.granted, stock.capacity
            ),
        }
    }
}

// A call has to give a number even where it names no block, and no store grants this one.
const NEVER: u32 = LARGEST_BLOCK + 1;

// The calls made on one pile: the blocks of the takes so far, and a line for each answer. A block that is granted anew is
// named by its last take alone.
#[derive(Drop)]
pub(crate) struct Session {
    taken: Vec<Option<u32>>,
    text: String,
}

impl Session {
    pub(crate) fn new(heap: Global) -> Session {
        Session {
            taken: Vec::new(heap),
            text: String::new(heap),
        }
    }

    // The lines so far.
    pub(crate) fn end(self) -> String {
        self.text
    }

    // The block of the take with this number.
    fn block(&self, number: usize) -> u32 {
        number
            .checked_sub(1)
            .and_then(|i| self.taken.get(i).copied())
            .flatten()
            .unwrap_or(NEVER)
    }

    // Keeps in mind a take that was granted.
    fn note(&mut self, block: u32) -> Result<(), AllocError> {
        for earlier in self.taken.iter_mut() {
            if *earlier == Some(block) {
                *earlier = None;
            }
        }
        self.taken.push(Some(block))?;
        Ok(())
    }

    // One call on a store.
    fn make<S: Store>(&self, store: &mut S, call: Call) -> Result<Reply, Fault> {
        match call {
            Call::Take => store.take().map(Reply::Taken),
            Call::Give(number) => store.give_back(self.block(number)).map(|()| Reply::Done),
            Call::Get(number, place) => store.get(self.block(number), place).map(Reply::Word),
            Call::Set(number, place, word) => store
                .set(self.block(number), place, word)
                .map(|()| Reply::Done),
            Call::Stock => store.stock().map(Reply::Stock),
        }
    }

    // Writes the line of an answer.
    fn write(&mut self, reply: Result<Reply, Fault>) -> Result<(), AllocError> {
        match reply {
            Ok(reply) => writeln!(self.text, "{reply}"),
            Err(fault) => writeln!(
                self.text,
                "no {} at {}",
                fault.refusal.number(),
                fault.depth
            ),
        }
    }

    // One call on a store, and the line of its answer.
    fn answer<S: Store>(&mut self, store: &mut S, call: Call) -> Result<(), AllocError> {
        let reply = self.make(store, call);
        if let Ok(Reply::Taken(block)) = reply {
            self.note(block)?;
        }
        self.write(reply)
    }

    // Makes calls on a store.
    pub(crate) fn answers<S: Store>(
        &mut self,
        store: &mut S,
        calls: &[Call],
    ) -> Result<(), AllocError> {
        for call in calls {
            self.answer(store, *call)?;
        }
        Ok(())
    }

    // Writes how layers came off.
    pub(crate) fn taken_off(&mut self, ended: Result<(), Fault>) -> Result<(), AllocError> {
        self.write(ended.map(|()| Reply::Done))
    }

    // The capacity at the end. Where there is no store or no layer it is 0, and the line says why.
    pub(crate) fn ended(&mut self, played: Result<Stock, Unmade>) -> Result<usize, AllocError> {
        match played {
            Ok(stock) => return Ok(stock.capacity as usize),
            Err(Unmade::Refused(fault)) => self.write(Err(fault))?,
            Err(Unmade::NoMemory) => writeln!(self.text, "no memory")?,
        }
        Ok(0)
    }

    // Writes how many marks and words a store left alone.
    pub(crate) fn spared(&mut self, marks: usize, words: usize) -> Result<(), AllocError> {
        writeln!(self.text, "spared {marks} marks, {words} words")
    }
}
