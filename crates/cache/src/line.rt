// The lines of a cache.
ghost use Rattle.std.specs.Prelude.{◌≤◌, vec_len, vec_capacity};

// A block and its words; whether they were set since they were last written below; when it was last used.
// `block` is 0 for none, not an `Option`: no store grants block 0, and a `Some(0)` would be a line that no search may find.
#[derive(Drop)]
pub struct Line {
    pub(crate) block: u32,
    pub(crate) changed: bool,
    pub(crate) used: u64,
    pub(crate) words: Vec<u64>,
    ghost room: { 512 ≤ vec_capacity words },
    ghost short: { vec_len words ≤ 512 },
}

// 1 to 16 lines, the uses so far, and whether the store below said that it is down.
#[derive(Drop)]
pub struct LineTable {
    pub(crate) lines: Vec<Line>,
    pub(crate) clock: u64,
    pub(crate) lost: bool,
    ghost some: { 1 ≤ vec_len lines },
    ghost few: { vec_len lines ≤ 16 },
}
