// Where the parts of a node stand in its block.
ghost use Rattle.std.specs.Prelude.{◌≡◌, ◌≤◌};
ghost use Rattle.nodes.specs.Places.{form, weight_at, key_at, child_at, breadth, block_number, damage};

use keys::key::Key;
use store::blocks::LARGEST_BLOCK;
use store::fault::{Fault, Refusal};

// How many entries a node has places for.
// a place is a plain number, with its bound at each use: it is computed anew from a count just read (the first,
// the last, the middle, the next), so a type for it would be built by the same proof at each of these calls
pub const PLACES: u32 = 80;

// The place of a node's level, and of its count.
pub const LEVEL_AT: u32 = 0;

pub const COUNT_AT: u32 = 1;

// How many words a block must have for a node of this kind of key.
pub fn block_width<K: Key>() -> u32
    ensures { result ≡ breadth (form K.width) }
{
    162 + 80 * K::words()
}

// Where the weight of entry i stands.
pub fn weight_at(i: u32) -> u32
    requires { i ≤ 80 }
    ensures { result ≡ weight_at i }
{
    2 + i
}

// Where the key of entry i begins.
pub fn key_at<K: Key>(i: u32) -> u32
    requires { i ≤ 80 }
    ensures { result ≡ key_at (form K.width) i }
{
    82 + K::words() * i
}

// Where the child or handle of entry i stands.
pub fn child_at<K: Key>(i: u32) -> u32
    requires { i ≤ 80 }
    ensures { result ≡ child_at (form K.width) i }
{
    82 + 80 * K::words() + i
}

// A stored word as a block number: 0, which no store grants, where it is none.
// no Option: a way that leads nowhere is refused by the store itself where it is followed, so the calls that follow one
// need no case of their own
#[tactic(auto, unfolding(store::specs::Meaning::limit))]
pub fn block_of(word: u64) -> u32
    ensures { result ≡ block_number word }
{
    if word <= u64::from(LARGEST_BLOCK) {
        word as u32
    } else {
        0
    }
}

// The words of a block are no node's.
pub fn damaged(block: u32) -> Fault
    ensures { result ≡ damage block }
{
    Fault {
        refusal: Refusal::Damaged,
        block,
        depth: 0,
    }
}
