// A list of calls made on a new index, one after the other.
use crate::call::{Answer, Call, Reply};
use index::index::{Created, Index};
use keys::checkpoint::Checkpoint;
use store::blocks::Store;
use store::fault::Refused;

// One call on the index.
fn serve<S: Store>(index: &mut Index<Checkpoint, S>, call: Call) -> Answer {
    match call {
        Call::Add(key, handle) => index.insert(&key, handle).map(Reply::Updated),
        Call::Del(key) => index.delete(&key).map(Reply::Updated),
        Call::Find(key) => index.find(&key).map(Reply::Handle),
        Call::Floor(key) => index.floor(&key).map(Reply::Nearest),
        Call::Resume(case) => index.resume(case).map(Reply::Nearest),
    }
}

// Makes each call on a new index in the store, answers it at its place, and yields the store. Where no index
// can be made, each call is answered with that refusal. The caller lends room for the answers, so this can't fail.
pub fn run<S: Store>(store: S, calls: &[Call], answers: &mut [Answer]) -> S {
    match Index::create(store) {
        Err(Refused { cause, back }) => {
            answers.fill(Err(cause));
            back
        }
        Ok(
            Created {
                mut index,
                header: _,
            },
        ) => {
            for (answer, call) in answers.iter_mut().zip(calls) {
                *answer = serve(&mut index, *call);
            }
            index.close()
        }
    }
}
