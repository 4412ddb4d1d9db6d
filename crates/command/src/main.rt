// Commands on standard input, answers on standard output: a checkpoint index in 32 blocks.
#![tactic(auto)]

use commands::answers::{LONGEST_INPUT, answer};
use std::io::{Read, Write};

fn main(rt: HostRuntime) -> anyhow::Result<()> {
    let mut input = Vec::new(rt.alloc());
    rt.stdin()
        .take(LONGEST_INPUT as u64 + 1)
        .read_to_end(&mut input)?;
    let text = answer(rt.alloc(), &input)?;
    rt.stdout().write_all(text.as_bytes())?;
    Ok(())
}
