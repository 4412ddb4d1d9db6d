// Runs every stored case, and says of each whether the output is the one that was computed independently.
#![tactic(auto)]

use commands::answers::answer;
use std::fs;

// Whether the answers to NAME.in are NAME.out.
fn agrees(rt: &HostRuntime, name: &str) -> anyhow::Result<bool> {
    let heap = rt.alloc();
    let input = fs::read(rt, format!(in heap; "{name}.in")?)?;
    let wanted = fs::read(rt, format!(in heap; "{name}.out")?)?;
    let text = answer(heap, &input)?;
    Ok(text.as_bytes() == wanted.as_slice())
}

fn main(rt: HostRuntime) -> anyhow::Result<()> {
    let names = fs::read_to_string(&rt, "names")?;
    for name in names.lines() {
        if agrees(&rt, name)? {
            println!(rt; "{name}: agrees")?;
        } else {
            println!(rt; "{name}: DIFFERS")?;
        }
    }
    Ok(())
}
