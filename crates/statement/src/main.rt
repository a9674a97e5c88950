// Reads an event file from standard input and prints its statement: what became of each record, and of the account.
#![tactic(auto)]

use account::provision::Provision;
use plans::three_lines::three_lines;
use quantities::unit::PerUnit;
use statement_file::statement::statement;
use std::io::Read;
use table_book::table::Table;

// A file past 65,536 bytes is refused whatever it holds, so that one byte more says enough.
const MOST_READ: u64 = 65_537;

fn print_statement(rt: &HostRuntime) -> anyhow::Result<()> {
    let heap = rt.alloc();
    let mut file = Vec::new(heap);
    rt.stdin().take(MOST_READ).read_to_end(&mut file)?;
    let provision = Provision {
        line: three_lines(),
        books: PerUnit::<Table>::default(),
    };
    rt.print(statement(heap, &file, provision)?)?;
    Ok(())
}

fn main(rt: HostRuntime) -> anyhow::Result<()> {
    print_statement(&rt)
}
