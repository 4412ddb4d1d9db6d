// Makes the calls on standard input on each store and on piles of layers, and writes what each answers.
#![tactic(auto)]

mod bottom;
mod call;
mod layers;
mod parse;
mod piles;

use bottom::over;
use layers::Layers;
use parse::parse;
use piles::{BOTTOMS, PILES};
use std::io::Read;

fn main(rt: HostRuntime) -> anyhow::Result<()> {
    let heap = rt.alloc();
    let mut input = Vec::new(heap);
    rt.stdin().take(1_000_000).read_to_end(&mut input)?;
    let calls = parse(heap, std::str::from_utf8(&input)?)?;
    // The last part of the calls is made on the store itself.
    for (name, bottom) in &BOTTOMS {
        let text = over(heap, *bottom, [Layers::Bare; 3], &calls)?;
        print!(rt; "{name}\n{text}")?;
    }
    for (name, early, late, bottom) in &PILES {
        let text = over(heap, *bottom, [*early, *late, Layers::Bare], &calls)?;
        print!(rt; "{name}\n{text}")?;
    }
    Ok(())
}
