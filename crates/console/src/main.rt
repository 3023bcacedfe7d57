// The console: reads a script from standard input and prints what each call answered.
#![tactic(auto)]

mod command;
mod play;
mod script;
mod show;
mod stacks;
mod words;
mod wrong;

use script::{Script, text_of};
use stacks::transcript;
use std::io::Read;

fn main(rt: HostRuntime) -> anyhow::Result<()> {
    let heap = rt.alloc();
    let mut input = Vec::new(heap);
    rt.stdin().read_to_end(&mut input)?;
    let text = text_of(heap, input.as_slice())?;
    let script = Script::read(heap, text.as_str())?;
    rt.print(transcript(heap, script)?)?;
    Ok(())
}
