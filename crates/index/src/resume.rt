// What a checkpoint index has besides: the last checkpoint of a case.
ghost use Rattle.std.specs.Prelude.{◌≡◌, IfSome, Err};
ghost use Rattle.plain.specs.Resume.{last_of, resume};
ghost use Rattle.held.specs.Held.{kind};
ghost use Rattle.index.specs.Open.{SameHandle, Queried};

use crate::index::Index;
use keys::checkpoint::Checkpoint;
use keys::key::Key;
use plain::pair::Pair;
use store::blocks::Store;
use store::fault::Fault;

// The largest checkpoint that a case can have.
#[tactic(auto, using(keys::specs::Alike::checkpoints))]
fn last_of(case: u32) -> Checkpoint
    ensures { result ≡ last_of case }
{
    Checkpoint {
        case,
        step: u32::MAX,
    }
}

impl<S: Store> Index<Checkpoint, S> {
    // The last checkpoint of a case, or nothing: the largest one up to the case's last possible step, unless
    // that is another case's.
    pub fn resume(&mut self, case: u32) -> Result<Option<Pair<Checkpoint>>, Fault>
        ensures repeats { IfSome self.old.fault (λ f. (result ≡ Err f) × (self.new ≡ self.old)) }
        ensures answers { Queried (kind ⟦<Checkpoint as Key>⟧.width ⟦<Checkpoint as Key>⟧.order ⟦<Checkpoint as Key>⟧.packed ⟦<Checkpoint as Key>⟧.unpacked) S.meaning S.ready (resume case) self.old result self.new }
        ensures handle { SameHandle self.old self.new }
    {
        Ok(
            self.floor(&last_of(case))?
                .filter(|pair| pair.key.case == case),
        )
    }
}
