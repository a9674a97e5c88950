// Prints the terms of every plan code, and what leads from each plan to each other.
#![tactic(auto)]

use plans::three_lines::{ThreeLines, three_lines};
use std::io;
use tariff::line::Line;
use tariff::terms::{Fate, PlanCode, Terms, UnitTerms};

fn print_unit<K>(rt: &HostRuntime, unit: &str, terms: &UnitTerms<K>) -> io::Result<()> {
    let amount = &terms.amount;
    let beyond = terms.beyond.sums;
    let restart = if terms.wiped_by_restart {
        "wipes"
    } else {
        "keeps"
    };
    if terms.offered {
        println!(rt; "  {unit}: {amount}, each beyond {beyond}, a Restart {restart} them")
    } else {
        println!(rt; "  {unit}: not offered, {amount} at {beyond}, a Restart {restart} them")
    }
}

fn print_terms(rt: &HostRuntime, code: u8, terms: &Terms) -> io::Result<()> {
    println!(rt; "plan {code}: fee {}", terms.fee.sums)?;
    // unit by unit: the terms of each have a type of their own
    print_unit(rt, "minutes", &terms.minutes)?;
    print_unit(rt, "megabytes", &terms.megabytes)?;
    print_unit(rt, "messages", &terms.messages)?;
    let offered = if terms.international.offered {
        ""
    } else {
        "not offered, "
    };
    println!(rt;
        "  messages abroad: {offered}each {}",
        terms.international.price.sums
    )?;
    let left = if terms.carries { "is carried" } else { "ends" };
    println!(rt; "  what is left {left}")
}

fn has_terms(line: &ThreeLines, code: u8) -> bool {
    line.terms(PlanCode(code)).is_some()
}

// Prints the terms of the codes that have any, and says how many have none.
fn print_plans(rt: &HostRuntime, line: &ThreeLines) -> io::Result<()> {
    for code in 0..=255u8 {
        if let Some(terms) = line.terms(PlanCode(code)) {
            print_terms(rt, code, &terms)?;
        }
    }
    let without = (0..=255u8).filter(|code| !has_terms(line, *code)).count();
    println!(rt; "{without} codes without terms")
}

fn print_entry(rt: &HostRuntime, line: &ThreeLines, from: u8, to: u8) -> io::Result<()> {
    let Some(entry) = line.entry(PlanCode(from), PlanCode(to)) else {
        return println!(rt; "from {from} to {to}: none");
    };
    let fate = match entry.fate {
        Fate::Kept => "kept",
        Fate::Wiped => "wiped",
    };
    println!(rt; "from {from} to {to}: {} {fate}", entry.price)
}

// Prints what leads from each code that has terms to each that has. The codes are asked again for each, since a list of them
// would want memory, and this program wants none.
fn print_entries(rt: &HostRuntime, line: &ThreeLines) -> io::Result<()> {
    for from in (0..=255u8).filter(|code| has_terms(line, *code)) {
        for to in (0..=255u8).filter(|code| has_terms(line, *code)) {
            print_entry(rt, line, from, to)?;
        }
    }
    Ok(())
}

fn main(rt: HostRuntime) -> io::Result<()> {
    let line = three_lines();
    print_plans(&rt, &line)?;
    print_entries(&rt, &line)
}
