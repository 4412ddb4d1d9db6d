// The interface of a block store.
//
// No call asks anything of its caller. A call on a store that is ready keeps its relation and leaves the store
// ready; each maker of a store makes a ready one.
ghost use Rattle.std.specs.Prelude.{◌≡◌, ◌-◌};
ghost use Rattle.store.specs.Meaning.{Meaning, Sound};
ghost use Rattle.store.specs.Calls.{Keeps, Take, Give, Get, Set, Stocked};
ghost use Rattle.store.specs.Events.{Event, asked_take, asked_give, asked_get, asked_set, asked_stock};

use crate::fault::Fault;

// The most words that a block may have.
pub const WIDEST: u32 = 512;

// The largest block number that a store grants.
pub const LARGEST_BLOCK: u32 = 1_048_575;

// What a store holds: words to a block, blocks granted, and the most that may be.
#[derive(Clone, Copy, PartialEq, Eq, Debug)]
pub struct Stock {
    pub width: u32,
    pub granted: u32,
    pub capacity: u32,
}

impl Stock {
    // How many blocks can still be taken.
    pub fn free(self) -> u32
        ensures { result ≡ self.capacity - self.granted }
    {
        self.capacity.saturating_sub(self.granted)
    }
}

pub trait Store {
    // what the store means
    ghost meaning: { Self → Meaning };

    // what every call needs and keeps
    ghost ready: { Self → Type 0 };

    // a ready store's meaning is well formed
    ghost sound: { (s : Self) → ready s → Sound (meaning s) };

    // the store went from one value to the other in this call; a store that keeps no record says nothing of it
    ghost did: { Self → Event → Self → Type 0 } = { λ _ _ _. Unit {0} };

    // Grants a block that is not granted, its words all 0.
    fn take(&mut self) -> Result<u32, Fault>
        ensures keeps { Keeps meaning ready Take self.old result self.new }
        ensures did { did self.old (asked_take result) self.new };

    // Gives a granted block back.
    fn give_back(&mut self, block: u32) -> Result<(), Fault>
        ensures keeps { Keeps meaning ready (Give block) self.old result self.new }
        ensures did { did self.old (asked_give block result) self.new };

    // The word at a place of a granted block.
    fn get(&mut self, block: u32, place: u32) -> Result<u64, Fault>
        ensures keeps { Keeps meaning ready (Get block place) self.old result self.new }
        ensures did { did self.old (asked_get block place result) self.new };

    // Changes the word at a place of a granted block.
    fn set(&mut self, block: u32, place: u32, word: u64) -> Result<(), Fault>
        ensures keeps { Keeps meaning ready (Set block place word) self.old result self.new }
        ensures did { did self.old (asked_set block place word result) self.new };

    // Width, granted blocks and capacity.
    fn stock(&mut self) -> Result<Stock, Fault>
        ensures keeps { Keeps meaning ready Stocked self.old result self.new }
        ensures did { did self.old (asked_stock result) self.new };
}
