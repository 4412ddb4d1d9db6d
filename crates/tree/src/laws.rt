// The laws of the tree, each the contract of a function that does nothing.
ghost use Rattle.std.specs.Prelude.{◌≡◌, ℕ};
ghost use Rattle.keys.specs.Checkpoints.{order as checkpoint_order};
ghost use Rattle.keys.specs.declared.checkpoint.Checkpoint.{Checkpoint};
ghost use Rattle.plain.specs.Resume.{of_case, last_of, resume};
ghost use Rattle.tree.specs.Laws.{RulesKept, RebalancingsBounded, BlocksCounted, PlacesSuffice, Splits, WayDown, Asked};
ghost use Rattle.tree.specs.Queries.{floor_down};
ghost use Rattle.tree.specs.Tree.{Shape, Tree, Rules, unit_of, content};

use keys::key::Key;

// An accepted update keeps the rules, and after any list of updates the tree holds the plain list's pairs.
pub fn rules_kept<K: Key>()
    ensures { (s : Shape) → RulesKept K.Key.order s }
{}

// At each level, rebalancings × (W / 8 + 1) are at most the accepted updates.
pub fn rebalancings_bounded<K: Key>()
    ensures { (s : Shape) → RebalancingsBounded K.Key.order s }
{}

// What an insertion takes and a deletion gives back.
pub fn blocks_counted<K: Key>()
    ensures { (s : Shape) → BlocksCounted K.Key.order s }
{}

// How many entries a node can have, even one just merged.
pub fn places_suffice<K: Key>()
    ensures { (s : Shape) → PlacesSuffice K.Key.order s }
{}

// Where a node is split, and which way a key goes down.
pub fn split_and_way<K: Key>()
    ensures splits { (s : Shape) → Splits K.Key.order s }
    ensures way { (s : Shape) → WayDown K.Key.order s }
{}

// Find, floor, rank, report and the count of an interval by going down.
pub fn answers_agree<K: Key>()
    ensures { (s : Shape) → Asked K.Key.order s }
{}

// Resume by going down, for checkpoints.
pub fn resume_agrees()
    ensures { (s : Shape) (t : Tree Checkpoint) → Rules checkpoint_order (unit_of s) s.top t → (case : ℕ) → of_case case (floor_down checkpoint_order t.level (last_of case) t.root) ≡ resume case (content Checkpoint t) }
{}
