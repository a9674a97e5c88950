// Prints the statement of each event file that its arguments name, under the file's name, on table books or small ones.
#![tactic(auto)]

use account::provision::Provision;
use book::meaning::Book;
use plans::three_lines::three_lines;
use quantities::unit::PerUnit;
use small_book::small::Small;
use statement_file::statement::statement;
use std::{env, fs};
use table_book::table::Table;

fn print_statement<B: Book + Default + Drop>(rt: &HostRuntime, name: &str) -> anyhow::Result<()> {
    let file = fs::read(rt, name)?;
    println!(rt; "{name}")?;
    let provision = Provision {
        line: three_lines(),
        books: PerUnit::<B>::default(),
    };
    rt.print(statement(rt.alloc(), &file, provision)?)?;
    Ok(())
}

// A file whose name begins so is run on small books.
const SMALL: &str = "small-";

fn print_all(rt: &HostRuntime) -> anyhow::Result<()> {
    for name in env::args(rt)?.skip(1) {
        if name.starts_with(SMALL) {
            print_statement::<Small>(rt, &name)?;
        } else {
            print_statement::<Table>(rt, &name)?;
        }
    }
    Ok(())
}

fn main(rt: HostRuntime) -> anyhow::Result<()> {
    print_all(&rt)
}
