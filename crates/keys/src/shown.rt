// Keys in words.
ghost use Rattle.std.specs.Prelude.{Some};
ghost use Rattle.keys.specs.Spelled.{spelled};

use crate::checkpoint::Checkpoint;
use std::fmt;

// As `7 3`: the case, then the step.
impl fmt::Display for Checkpoint {
    ghost output = { λ c. Some (spelled c) };

    fn fmt<W: fmt::Write>(&self, f: &mut fmt::Formatter<W>) -> fmt::Result {
        write!(f, "{} {}", self.case, self.step)
    }
}
