// What an accepted update leaves, and how one is refused.
ghost use Rattle.std.specs.Prelude.{◌≡◌};
ghost use Rattle.balance.specs.Limits.{Bounded};
ghost use Rattle.balance.specs.Updates.{own_refusal};

use crate::marks::Marks;
use nodes::header::Header;
use store::fault::{Fault, Refusal};

// Where a tree stands, within the bounds that every update keeps.
#[derive(Clone, Copy)]
pub struct Tree {
    pub header: Header,
    ghost bounded: { Bounded header },
}

// Where the tree now stands, and what was rebalanced.
#[derive(Clone, Copy)]
pub struct Updated {
    pub tree: Tree,
    pub marks: Marks,
}

// A refusal of the index itself.
// beside nodes' `damaged`, which has the block and one reason: one maker of both would be given a constant at each call
pub fn refuse(refusal: Refusal) -> Fault
    ensures { result ≡ own_refusal refusal }
{
    Fault {
        refusal,
        block: 0,
        depth: 0,
    }
}
