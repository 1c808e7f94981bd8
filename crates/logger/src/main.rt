//! A logger in the field: it reads one sheet on standard input, writes it again into a second buffer,
//! and prints what it found. It carries no plan.
#![tactic(auto)]

mod report;

use report::inspect;
use std::io::Read;

fn main(rt: HostRuntime) -> anyhow::Result<()> {
    let mut sheet = Vec::new(rt.alloc());
    rt.stdin().read_to_end(&mut sheet)?;
    let mut again = vec![in rt.alloc(); 0u8; sheet.len()]?;
    match inspect(&sheet, &mut again) {
        Ok(report) => println!(rt; "{report}")?,
        Err(refusal) => println!(rt; "{refusal}")?,
    }
    Ok(())
}
