// Prints the readable text of the order file on standard input.
#![tactic(auto)]

use orderfile::input::read_bytes;

// `imbalance` differs in one call: one function for both would be no plainer, since it takes a closure for that call and can promise
// nothing of what is printed.
fn run(rt: &HostRuntime) -> anyhow::Result<()> {
    let heap = rt.alloc();
    let file = read_bytes(heap, rt.stdin())?;
    let text = report::describe(heap, file.as_slice())?;
    rt.print(text.as_str())?;
    Ok(())
}

fn main(rt: HostRuntime) -> anyhow::Result<()> {
    run(&rt)
}
