// The whole of the command program: input to output.
use crate::call::{Answer, Call, Reply};
use crate::parse::parse;
use crate::run::run;
use std::alloc::{AllocError, Global};
use std::fmt::Write;
use stores::lent::Runs;
use stores::table::{Rows, TableStore};

// The most input that is read, in bytes.
pub const LONGEST_INPUT: usize = 65_536;

// The index has this many blocks, of the width that checkpoints need.
const BLOCKS: usize = 32;

const WIDTH: usize = 242;

// The calls among the lines.
fn calls_of(heap: Global, lines: &[Option<Call>]) -> Result<Vec<Call>, AllocError> {
    lines.iter().flatten().copied().collect(heap)
}

// Makes the calls on a fresh index in 32 table blocks.
fn answers_of(heap: Global, calls: &[Call]) -> Result<Vec<Answer>, AllocError> {
    let mut answers = vec![in heap; Ok(Reply::Handle(None)); calls.len()]?;
    let mut words = vec![in heap; 0u64; BLOCKS * WIDTH]?;
    let mut marks = vec![in heap; 0u8; BLOCKS]?;
    let runs = Runs {
        words: &mut words,
        marks: &mut marks,
        layout: Rows,
    };
    if let Ok(store) = TableStore::fresh(runs, WIDTH as u32) {
        let _ = run(store, calls, &mut answers);
    }
    Ok(answers)
}

// A line of text for each line of the input.
fn write_all(
    heap: Global,
    lines: &[Option<Call>],
    answers: &[Answer],
) -> Result<String, AllocError> {
    let mut text = String::new(heap);
    let mut answers = answers.iter();
    for line in lines {
        match line.and_then(|_| answers.next()) {
            Some(Ok(reply)) => writeln!(text, "{reply}")?,
            Some(Err(fault)) => writeln!(text, "no {}", fault.refusal.number())?,
            None => text.push_str("bad\n")?,
        }
    }
    Ok(text)
}

// What the program writes for an input: every line is parsed, then every call made, then every answer written.
pub fn answer(heap: Global, input: &[u8]) -> Result<String, AllocError> {
    if input.len() > LONGEST_INPUT {
        return String::from_str(heap, "input too long\n");
    }
    let lines = parse(heap, input)?;
    let calls = calls_of(heap, &lines)?;
    let answers = answers_of(heap, &calls)?;
    write_all(heap, &lines, &answers)
}
