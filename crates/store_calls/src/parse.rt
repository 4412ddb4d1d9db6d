// The calls of a text, one to a line: take, give B, get B P, set B P W, stock. A blank line stands between two parts.
use crate::call::Call;
use std::alloc::{AllocError, Global};

// A number among the words, 0 where there is none: the program takes any text, and has no answer for a bad line.
fn number(word: Option<&str>) -> u64 {
    word.and_then(|text| text.parse().ok()).unwrap_or(0)
}

// A number that is at most as large as a place can be.
fn place(word: Option<&str>) -> u32 {
    u32::try_from(number(word)).unwrap_or(u32::MAX)
}

// The call of a line.
fn parse_line(line: &str) -> Call {
    let mut words = line.split(' ');
    match words.next() {
        Some("take") => Call::Take,
        Some("give") => Call::Give(number(words.next()) as usize),
        Some("get") => Call::Get(number(words.next()) as usize, place(words.next())),
        Some("set") => Call::Set(
            number(words.next()) as usize,
            place(words.next()),
            number(words.next()),
        ),
        _ => Call::Stock,
    }
}

// The calls of all lines, part after part.
pub fn parse(heap: Global, text: &str) -> Result<Vec<Vec<Call>>, AllocError> {
    let mut parts = Vec::new(heap);
    for part in text.split("\n\n") {
        parts.push(part.lines().map(parse_line).collect(heap)?)?;
    }
    Ok(parts)
}
