// What a line asks for.
ghost use Rattle.std.specs.Prelude.{◌^◌, ◌<◌, ◌≤◌};

use crate::order::{Order, RANGE};
use keys::checkpoint::Checkpoint;

// So many cases of so many steps are inserted in an order, and then so many cases are resumed.
#[derive(Clone, Copy)]
pub struct Load {
    pub order: Order,
    pub cases: u32,
    pub steps: u32,
    pub checkpoints: u32,
    pub resumes: u32,
    ghost within: { (0 < steps) × (checkpoints ≤ 1048576) × (cases < 2 ^ 32) },
}

fn number(word: &str) -> Option<u32> {
    word.parse().ok()
}

impl Load {
    // The load of a line, as `scattered 25 40 2000`; nothing where the line has no load, or one that is too large.
    pub fn parse(line: &str) -> Option<Load> {
        let mut words = line.split(' ');
        let order = match words.next()? {
            "ascending" => Order::Ascending,
            "scattered" => Order::Scattered,
            _ => return None,
        };
        let cases = number(words.next()?)?;
        let steps = number(words.next()?)?;
        let resumes = number(words.next()?)?;
        let checkpoints = cases.checked_mul(steps)?;
        if steps == 0 || checkpoints > RANGE {
            return None;
        }
        Some(Load {
            order,
            cases,
            steps,
            checkpoints,
            resumes,
        })
    }

    // Checkpoint number `number` in ascending order.
    pub fn checkpoint(&self, number: u32) -> Checkpoint {
        Checkpoint {
            case: number / self.steps,
            step: number % self.steps,
        }
    }

    // The case that resume number `number` asks for: any of those that are there, or the one after the last.
    pub fn asked(&self, number: u32) -> u32 {
        (u64::from(number) * 7_919 % (u64::from(self.cases) + 1)) as u32
    }

    // Blocks that are enough: a node other than the root weighs at least 16 at the leaves, and 16 times more at each level.
    pub fn blocks(&self) -> usize
        ensures { result ≤ 69911 }
    {
        self.checkpoints as usize / 15 + 6
    }
}
