// A door reader with its barrier: the house's specification and a supplier's design, from file bytes to answers.
#![tactic(auto)]

mod compare;
mod equipment;
mod report;

use compare::show_comparison;
use equipment::{DAMAGED, DESIGN, SPECIFICATION};
use filing::filed::Filed;
use filing::filing::file;
use report::{show_clauses, show_system};
use std::io;
use systems::kinds::Rank;

fn main(rt: HostRuntime) -> io::Result<()> {
    println!(rt; "A door reader with its barrier")?;
    println!(rt; "actions: 1 card, 2 accept, 3 reject, 4 pass, 5 tamper")?;
    let mut specification: Filed<Rank> = Filed::lone();
    let mut design: Filed<Rank> = Filed::lone();
    let first = file(SPECIFICATION, 0, &mut specification);
    let second = file(DESIGN, 0, &mut design);
    if let (Ok(first_end), Ok(second_end)) = (first, second) {
        show_system(&rt, "specification", &specification, first_end)?;
        show_system(&rt, "design", &design, second_end)?;
        show_clauses(&rt, &specification, &design)?;
        show_comparison(
            &rt,
            "The specification against the design",
            &specification,
            &design,
        )?;
        show_comparison(
            &rt,
            "The design against the specification",
            &design,
            &specification,
        )?;
    }
    println!(rt; "\nA damaged copy of the specification")?;
    if let Err(fault) = file(DAMAGED, 0, &mut specification) {
        println!(rt; "refused {fault}")?;
    }
    Ok(())
}
