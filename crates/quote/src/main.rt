// Reads riser layouts from standard input, one to a line, and prints the cable steps between all pairs of panels.
// Assumes nothing: what is printed for a text is `layout::quote::quote_all`, which is proved.
#![tactic(auto)]

use layout::quote::quote_all;
use std::io::Read;

fn main(rt: HostRuntime) -> anyhow::Result<()> {
    let mut text = Vec::new(rt.alloc());
    rt.stdin().read_to_end(&mut text)?;
    let quotes = quote_all(rt.alloc(), text.as_slice())?;
    rt.print(quotes)?;
    Ok(())
}
