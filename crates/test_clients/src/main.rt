//! Runs clients on threads over new databases in memory: 2 and 16 of them, many times each. Each client
//! enters and leaves a level, again and again; then each also creates one record that the others create
//! too, so that they wait for each other. It writes how many ended normally, how many events the traces
//! have and how many records were created, which are the same for every schedule. Then it holds clients
//! at a gate before their first operation, and writes in how many runs all of them met there: clients
//! that run beside each other meet in every run, and one that waits for a second client in none.
#![tactic(auto)]

mod database;
mod runs;
mod script;

use crate::runs::{Totals, meet, run};
use crate::script::Work;
use std::io;

const RUNS: u32 = 200;

/// How many runs there are in which clients wait for each other.
const WAITING_RUNS: u32 = 50;

fn main(rt: HostRuntime) -> io::Result<()> {
    for clients in [2u16, 16] {
        let mut totals = Totals::new();
        for _ in 0..RUNS {
            run(&rt, rt.alloc(), clients, Work::Nothing, &mut totals);
        }
        println!(rt;
            "{clients} clients: {} ended normally, {} events, {} runs without memory",
            totals.ended, totals.events, totals.failed
        )?;
    }
    for clients in [2u16, 16] {
        let mut totals = Totals::new();
        for _ in 0..WAITING_RUNS {
            run(&rt, rt.alloc(), clients, Work::Creates, &mut totals);
        }
        println!(rt;
            "{clients} clients of one record: {} ended normally, {} events, {} created, {} runs without memory",
            totals.ended, totals.events, totals.created, totals.failed
        )?;
    }
    for (clients, expected) in [(2u16, 2u16), (16, 16), (1, 2)] {
        let mut met = 0u32;
        for _ in 0..RUNS {
            if meet(&rt, rt.alloc(), clients, expected) {
                met = met.saturating_add(1);
            }
        }
        println!(rt; "{clients} clients at a gate for {expected}: met in {met} of {RUNS} runs")?;
    }
    Ok(())
}
