// A node, as the way down reaches it.

// The node's block, and the level that the way down to it gives it.
#[derive(Clone, Copy, PartialEq, Eq, Debug)]
pub struct Node {
    pub block: u32,
    pub level: u32,
}
