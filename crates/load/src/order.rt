// The orders in which checkpoints are inserted.
ghost use Rattle.std.specs.Prelude.{◌<◌};

// The numbers below this one can be put in order.
pub const RANGE: u32 = 1_048_576;

#[derive(Clone, Copy)]
pub enum Order {
    Ascending,
    Scattered,
}

impl Order {
    // The number after this one. From any number on, either order meets every number below the range once in so many steps:
    // the scattered one is a linear congruence of full period, which puts neighbours far apart.
    pub fn next(self, number: u32) -> u32
        ensures { result < 1048576 }
    {
        let next = match self {
            Order::Ascending => u64::from(number) + 1,
            Order::Scattered => u64::from(number) * 1_664_525 + 1_013_904_223,
        };
        (next % u64::from(RANGE)) as u32
    }
}
