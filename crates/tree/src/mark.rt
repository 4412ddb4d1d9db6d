// What an update did to the nodes of a level.
ghost use Rattle.std.specs.Prelude.{Some};
ghost use Rattle.tree.specs.Letters.{letter_of};

use std::fmt;

// What an update did to the nodes of one level. `MergeSplit` is a merge whose node was split again.
#[derive(Clone, Copy, PartialEq, Eq, Debug)]
pub enum Mark {
    Nothing,
    Split,
    Merge,
    MergeSplit,
}

// One letter.
impl fmt::Display for Mark {
    ghost output = { λ m. Some (letter_of m) };

    fn fmt<W: fmt::Write>(&self, f: &mut fmt::Formatter<W>) -> fmt::Result {
        f.write_str(match self {
            Mark::Nothing => "-",
            Mark::Split => "S",
            Mark::Merge => "M",
            Mark::MergeSplit => "B",
        })
    }
}
