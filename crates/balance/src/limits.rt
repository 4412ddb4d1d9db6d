// The weights that nodes may have, by level.
ghost use Rattle.std.specs.Prelude.{◌≡◌, ◌*◌, ◌^◌};
ghost use Rattle.balance.specs.Limits.{limit_of};

// The highest level that a root may have.
pub const TOP_LEVEL: u32 = 4;

// The most that a node of this level may weigh: 64 × 16^level. A level above the top counts as the top.
#[tactic(auto, using(crate::proofs::Levels::limit_shifted))]
pub fn limit(level: u32) -> u64
    ensures { result ≡ limit_of level }
{
    64 << (4 * level.min(TOP_LEVEL))
}
