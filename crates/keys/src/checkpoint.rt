ghost use Rattle.std.specs.Prelude.{◌^◌, ◌<◌};

// A step of a case, each a number of 32 bits.
#[derive(Clone, Copy, PartialEq, Eq, PartialOrd, Ord, Debug)]
pub struct Checkpoint {
    pub case: u32,
    pub step: u32,
    ghost fits: { (case < 2 ^ 32) × (step < 2 ^ 32) },
}
