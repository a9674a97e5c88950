// Drives the table book and the small book through the same steps, side by side: a line for each step says what each
// book answered and holds, and whether they are the same, or apart since the small one refused what the table accepted.
#![tactic(auto)]

mod driver;
mod script;
mod shown;
mod steps;
mod together;

use crate::driver::side;
use crate::script::{CAPS, FULL, HOARD, MONTHS};
use crate::steps::Step;
use crate::together::Pair;
use quantities::time::Day;
use std::io;

fn show(rt: &HostRuntime, pair: &mut Pair, step: Step) -> io::Result<()> {
    let answers = pair.take(step);
    let table = side(answers.table, &pair.table);
    let small = side(answers.small, &pair.small);
    let verdict = if !pair.compared {
        "apart"
    } else if table.look == small.look {
        "same"
    } else {
        "differ"
    };
    println!(rt; "{step} | table {table} | small {small} | {verdict}")
}

fn show_all(rt: &HostRuntime, pair: &mut Pair, steps: &[Step]) -> io::Result<()> {
    for step in steps {
        show(rt, pair, *step)?;
    }
    Ok(())
}

// Lots of two units with ends 100 to 132, out of order.
fn spread(rt: &HostRuntime, pair: &mut Pair) -> io::Result<()> {
    for i in 0..33u32 {
        show(rt, pair, Step::Fill(2))?;
        show(rt, pair, Step::SetAside(Day(100 + i * 7 % 33), Day(400)))?;
    }
    Ok(())
}

// 2,000 grants of 1,000,000 units set aside to one day.
fn hoard(pair: &mut Pair) {
    for _ in 0..2_000u32 {
        pair.take(Step::Fill(1_000_000));
        pair.take(Step::SetAside(Day(70), Day(70)));
    }
}

fn main(rt: HostRuntime) -> io::Result<()> {
    let mut pair = Pair::new();
    show_all(&rt, &mut pair, &MONTHS)?;
    show_all(&rt, &mut pair, &CAPS)?;
    spread(&rt, &mut pair)?;
    show_all(&rt, &mut pair, &FULL)?;
    hoard(&mut pair);
    show_all(&rt, &mut pair, &HOARD)
}
