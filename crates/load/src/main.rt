// Fills a checkpoint index as each line of standard input says, resumes its cases, and writes what was done. Time is measured from
// outside: what is written is the same on every machine.
#![tactic(auto)]

mod load;
mod order;
mod work;

use load::Load;
use std::io::Read;
use work::carry_out;

fn main(rt: HostRuntime) -> anyhow::Result<()> {
    let heap = rt.alloc();
    let mut input = Vec::new(heap);
    rt.stdin().take(10_000).read_to_end(&mut input)?;
    for line in std::str::from_utf8(&input)?.lines() {
        match Load::parse(line) {
            Some(load) => println!(rt; "{line}\n{}", carry_out(heap, &load)?)?,
            None => println!(rt; "{line}\nno load")?,
        }
    }
    Ok(())
}
