// The way from a node to one of its children.
ghost use Rattle.std.specs.Prelude.{◌<◌};

use nodes::node::Node;

// The block of the parent, the child's place there, and the child.
#[derive(Clone, Copy)]
pub struct Way {
    pub parent: u32,
    pub place: u32,
    pub child: Node,
    ghost within: { place < 80 },
}
