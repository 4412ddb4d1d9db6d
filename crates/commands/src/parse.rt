// Lines and words of the input. Any byte may come.
use crate::call::Call;
use keys::checkpoint::Checkpoint;
use std::alloc::{AllocError, Global};

// The longest line that is read; its LF doesn't count.
const LONGEST_LINE: usize = 80;

// The number that plain digits without a leading zero say, if a word holds it.
pub fn number(word: &[u8]) -> Option<u64> {
    match word {
        [] | [b'0', _, ..] => None,
        _ => word.iter().try_fold(0u64, |value, byte| {
            let digit = char::from(*byte).to_digit(10)?;
            value.checked_mul(10)?.checked_add(u64::from(digit))
        }),
    }
}

// A case or a step.
fn half(word: &[u8]) -> Option<u32> {
    u32::try_from(number(word)?).ok()
}

fn checkpoint(case: &[u8], step: &[u8]) -> Option<Checkpoint> {
    let case = half(case)?;
    let step = half(step)?;
    Some(Checkpoint { case, step })
}

// The call that a line asks for, or nothing if the line is bad. One space stands between two words; two spaces
// have an empty word between them.
pub fn parse_line(line: &[u8]) -> Option<Call> {
    if line.len() > LONGEST_LINE {
        return None;
    }
    let mut words = line.split(|byte| *byte == b' ');
    let name = words.next()?;
    let arguments = [words.next(), words.next(), words.next(), words.next()];
    match (name, arguments) {
        (b"add", [Some(case), Some(step), Some(handle), None]) => {
            Some(Call::Add(checkpoint(case, step)?, number(handle)?))
        }
        (b"del", [Some(case), Some(step), None, _]) => Some(Call::Del(checkpoint(case, step)?)),
        (b"find", [Some(case), Some(step), None, _]) => Some(Call::Find(checkpoint(case, step)?)),
        (b"floor", [Some(case), Some(step), None, _]) => {
            Some(Call::Floor(checkpoint(case, step)?))
        }
        (b"resume", [Some(case), None, _, _]) => Some(Call::Resume(half(case)?)),
        _ => None,
    }
}

// The calls of all lines, in order. The last line may lack its LF.
pub fn parse(heap: Global, input: &[u8]) -> Result<Vec<Option<Call>>, AllocError> {
    input
        .split_inclusive(|byte| *byte == b'\n')
        .map(|line| parse_line(line.strip_suffix(b"\n").unwrap_or(line)))
        .collect(heap)
}
