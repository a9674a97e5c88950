// Prints, for each event file that its arguments name, the totals of all receipts and how the account ends.
#![tactic(auto)]

use account::provision::Provision;
use anyhow::Context;
use plans::three_lines::three_lines;
use quantities::unit::PerUnit;
use receipt::receipt::Receipt;
use receipt::tally::Tally;
use statement_text::line::last_line;
use std::{env, fs};
use table_book::table::Table;
use totals::life::life_of_file;

fn print_tally<K>(rt: &HostRuntime, unit: &str, tally: Tally<K>) -> anyhow::Result<()> {
    println!(rt;
        "{unit} {} {} {} {} {} {} {}",
        tally.granted,
        tally.within,
        tally.beyond,
        tally.ended,
        tally.late,
        tally.wiped_by_restart,
        tally.wiped_by_switch
    )?;
    Ok(())
}

fn print_totals(rt: &HostRuntime, total: Receipt) -> anyhow::Result<()> {
    println!(rt;
        "sums {} {} {}",
        total.fees, total.use_charges, total.switch_charges
    )?;
    // unit by unit: each tally has a type of its own
    print_tally(rt, "minutes", total.minutes)?;
    print_tally(rt, "megabytes", total.megabytes)?;
    print_tally(rt, "messages", total.messages)
}

fn print_life(rt: &HostRuntime, name: &str) -> anyhow::Result<()> {
    let file = fs::read(rt, name)?;
    println!(rt; "{name}")?;
    let provision = Provision {
        line: three_lines(),
        books: PerUnit::<Table>::default(),
    };
    let life = life_of_file(&file, provision).ok().context("no run")?;
    print_totals(rt, life.total)?;
    println!(rt; "balance {}", life.account.balance())?;
    let last = last_line(rt.alloc(), life.account.status())?;
    rt.print(last.context("the due day is past the calendar")?)?;
    Ok(())
}

fn print_all(rt: &HostRuntime) -> anyhow::Result<()> {
    for name in env::args(rt)?.skip(1) {
        print_life(rt, &name)?;
    }
    Ok(())
}

fn main(rt: HostRuntime) -> anyhow::Result<()> {
    print_all(&rt)
}
