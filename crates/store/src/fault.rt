// Why a call was refused, at which block, and how many layers below the index it arose.
ghost use Rattle.std.specs.Prelude.{◌≡◌, Some};
ghost use Rattle.store.specs.declared.fault.Unmade.TheVariants.{Refused, NoMemory};
ghost use Rattle.store.specs.Faults.{number_of, word_of, deeper, own_fault, in_words};

use std::alloc::AllocError;
use std::error::Error;
use std::fmt;

// Every refusal there is, with its number, which is fixed for good.
#[derive(Clone, Copy, PartialEq, Eq, Debug)]
pub enum Refusal {
    Down = 1,
    Damaged,
    Present,
    Absent,
    Full,
    NoRoom,
    Uneven,
    NotGranted,
    Outside,
    Misfit,
}

impl Refusal {
    // The refusal's number.
    pub fn number(self) -> u32
        ensures { result ≡ number_of self }
    {
        self as u32
    }

    // The refusal's word.
    pub fn word(self) -> &'static str
        ensures { result.now ≡ word_of self }
    {
        match self {
            Refusal::Down => "down",
            Refusal::Damaged => "damaged",
            Refusal::Present => "present",
            Refusal::Absent => "absent",
            Refusal::Full => "full",
            Refusal::NoRoom => "no room",
            Refusal::Uneven => "uneven",
            Refusal::NotGranted => "not granted",
            Refusal::Outside => "outside",
            Refusal::Misfit => "misfit",
        }
    }
}

// By the refusal's word.
impl fmt::Display for Refusal {
    ghost output = { λ r. Some (word_of r) };

    fn fmt<W: fmt::Write>(&self, f: &mut fmt::Formatter<W>) -> fmt::Result {
        f.write_str(self.word())
    }
}

// `block` is 0 where no block is meant, and no `Option`: the number is part of what a fault tells, in words and to callers
// that know numbers only, and no store grants block 0. The store right under the index has depth 1.
#[derive(Clone, Copy, PartialEq, Eq, Debug)]
pub struct Fault {
    pub refusal: Refusal,
    pub block: u32,
    pub depth: u64,
}

impl Fault {
    // A refusal of the store that was called.
    pub fn own(refusal: Refusal, block: u32) -> Fault
        ensures { result ≡ own_fault refusal block }
    {
        Fault {
            refusal,
            block,
            depth: 1,
        }
    }

    // The same fault, seen from one layer higher.
    pub fn deeper(self) -> Fault
        ensures { result ≡ deeper self }
    {
        Fault {
            depth: self.depth.saturating_add(1),
            ..self
        }
    }
}

// As `refused with 6 (no room), block 0, 2 layers down`.
impl fmt::Display for Fault {
    ghost output = { λ f. Some (in_words f) };

    fn fmt<W: fmt::Write>(&self, f: &mut fmt::Formatter<W>) -> fmt::Result {
        write!(
            f,
            "refused with {} ({}), block {}, {} layers down",
            self.refusal.number(),
            self.refusal,
            self.block,
            self.depth
        )
    }
}

impl Error for Fault {}

// Why a store, or the table of lines of a cache, was not made.
#[derive(Clone, Copy, PartialEq, Eq, Debug)]
pub enum Unmade {
    Refused(Fault),
    NoMemory,
}

impl From<Fault> for Unmade {
    ghost from_gives = { λ f r. r ≡ Refused f };

    fn from(fault: Fault) -> Unmade {
        Unmade::Refused(fault)
    }
}

impl From<AllocError> for Unmade {
    ghost from_gives = { λ _ r. r ≡ NoMemory };

    fn from(_: AllocError) -> Unmade {
        Unmade::NoMemory
    }
}

// What refused a value, with the value handed back: a store, or lent runs.
#[derive(Drop)]
pub struct Refused<E, T> {
    pub cause: E,
    pub back: T,
}
