// What an accepted update did at each level.
ghost use Rattle.std.specs.Prelude.{◌≡◌, ℕ, ◌≤◌, if◌then◌else◌, nat_eq, Some};
ghost use Rattle.tree.specs.declared.mark.Mark.TheVariants.{Nothing};
ghost use Rattle.balance.specs.Marks.{mark_at, letters};

use std::fmt;
use tree::mark::Mark;

// A mark for each level, the leaves first. Five fields and no array: each level's mark is read by its name, as the rules
// of the interface want it, and a tree has no more levels.
#[derive(Clone, Copy, PartialEq, Eq, Debug)]
pub struct Marks {
    pub level0: Mark,
    pub level1: Mark,
    pub level2: Mark,
    pub level3: Mark,
    pub level4: Mark,
}

impl Marks {
    // Nothing at any level.
    pub fn none() -> Marks
        ensures { (j : ℕ) → mark_at result j ≡ Nothing }
    {
        Marks {
            level0: Mark::Nothing,
            level1: Mark::Nothing,
            level2: Mark::Nothing,
            level3: Mark::Nothing,
            level4: Mark::Nothing,
        }
    }

    // The same marks, but this one at this level. A level above the top counts as the top.
    pub fn with(self, level: u32, mark: Mark) -> Marks
        ensures { level ≤ 4 → (j : ℕ) → mark_at result j ≡ (if nat_eq j level then mark else mark_at self j) }
    {
        let mut marks = self;
        match level {
            0 => marks.level0 = mark,
            1 => marks.level1 = mark,
            2 => marks.level2 = mark,
            3 => marks.level3 = mark,
            _ => marks.level4 = mark,
        }
        marks
    }
}

// Five letters, the leaves first.
impl fmt::Display for Marks {
    ghost output = { λ m. Some (letters m) };

    fn fmt<W: fmt::Write>(&self, f: &mut fmt::Formatter<W>) -> fmt::Result {
        write!(
            f,
            "{}{}{}{}{}",
            self.level0, self.level1, self.level2, self.level3, self.level4
        )
    }
}
