// Works one month: shares a pool by both rules, pays totals by the standard pile, and prints each step.
#![tactic(auto)]

mod entry;
mod input;
mod work;

use input::{NotRead, read_month};
use std::io::BufReader;
use work::print_month;

// Nothing is worked before the whole input is read.
fn run(rt: &HostRuntime) -> anyhow::Result<()> {
    match read_month(rt.alloc(), BufReader::new(rt.alloc(), rt.stdin())?) {
        Ok(month) => print_month(rt, &month),
        Err(NotRead::Memory(full)) => Err(full.into()),
        Err(why) => {
            println!(rt; "{why}; nothing is worked")?;
            Ok(())
        }
    }
}

fn main(rt: HostRuntime) -> anyhow::Result<()> {
    run(&rt)
}
