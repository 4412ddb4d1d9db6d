ghost use Rattle.std.specs.Prelude.{◌^◌, ◌<◌};
ghost use Rattle.std.specs.Int.Signed.{mag};

// A due minute, counted from 1970, before or after, and a serial number within it.
#[derive(Clone, Copy, PartialEq, Eq, PartialOrd, Ord, Debug)]
pub struct DueStamp {
    pub minute: i64,
    pub serial: u64,
    ghost fits: { (mag minute < 2 ^ 63) × (serial < 2 ^ 64) },
}
