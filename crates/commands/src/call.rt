// The calls that a line can ask for, and their answers.
use balance::marks::Marks;
use keys::checkpoint::Checkpoint;
use plain::pair::Pair;
use store::fault::Fault;

#[derive(Clone, Copy)]
pub enum Call {
    Add(Checkpoint, u64),
    Del(Checkpoint),
    Find(Checkpoint),
    Floor(Checkpoint),
    Resume(u32),
}

// What the index tells of a call that it accepts.
#[derive(Clone, Copy)]
pub enum Reply {
    Updated(Marks),
    Handle(Option<u64>),
    Nearest(Option<Pair<Checkpoint>>),
}

pub type Answer = Result<Reply, Fault>;
