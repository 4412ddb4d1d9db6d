// The laws of the plain sorted list, each the contract of a function that does nothing.
ghost use Rattle.plain.specs.Laws.{PlainLaws, Resumes};

use keys::key::Key;

// Finding and floor mean what they say, an interval is counted by two ranks, every call keeps the keys ascending, and a
// refusal changes nothing.
pub fn plain_list<K: Key>()
    ensures { PlainLaws K.Key.order }
{}

// Resume finds the last step of a case.
pub fn resume_finds_last_step()
    ensures { Resumes }
{}
