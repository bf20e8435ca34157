// Comparing a pair step by step.
use comparison::closing::close;
use comparison::opening::begin;
use comparison::refusal::Refused;
use comparison::round::round;
use comparison::run::run;
use comparison::stage::{Open, Verdict};
use comparison::strike::Strike;
use std::io;
use systems::kinds::Rank;
use systems::system::System;

// opens, does two rounds one at a time, runs on, and closes
pub(crate) fn show_comparison<A: System<Rank>, B: System<Rank>>(
    rt: &HostRuntime,
    title: &str,
    first: &A,
    second: &B,
) -> io::Result<()> {
    println!(rt; "\n{title}")?;
    let mut sheet = [Strike::BLANK; 4096];
    let opened = match begin(first, second, &mut sheet) {
        Ok(opened) => opened,
        Err(refusal) => return println!(rt; "  refused {refusal}"),
    };
    let show_round = |k: u16, struck: u32| println!(rt; "  round {k} struck {struck}");
    let once = show_step(rt, round(opened, first, second, &mut sheet), show_round)?;
    let twice = show_step(rt, round(once, first, second, &mut sheet), show_round)?;
    let rest = show_step(
        rt,
        run(twice, first, second, &mut sheet, 4097),
        |_, (rounds, struck)| println!(rt; "  a run of {rounds} more struck {struck}"),
    )?;
    show_verdict(rt, rest, &sheet)
}

// shows what a round or a run answered, with the rounds done, or that it was refused
fn show_step<T: Drop, F: FnOnce(u16, T) -> io::Result<()>>(
    rt: &HostRuntime,
    outcome: Result<(Open, T), Refused>,
    show: F,
) -> io::Result<Open>
    requires { F.IsAlwaysCallable show }
{
    match outcome {
        Ok((next, answer)) => {
            show(next.rounds(), answer)?;
            Ok(next)
        }
        Err(refused) => show_refused(rt, refused),
    }
}

fn show_refused(rt: &HostRuntime, refused: Refused) -> io::Result<Open> {
    let Refused {
        refusal,
        comparison,
    } = refused;
    println!(rt; "  refused {refusal}, and the comparison given back")?;
    Ok(comparison)
}

fn show_verdict(rt: &HostRuntime, comparison: Open, sheet: &[Strike]) -> io::Result<()> {
    let rounds = comparison.rounds();
    match close(comparison, sheet) {
        Ok(Verdict::Yes(_)) => println!(rt; "  yes, after {rounds} rounds"),
        Ok(Verdict::No(_)) => println!(rt; "  no, after {rounds} rounds"),
        Err(refused) => {
            let _comparison = show_refused(rt, refused)?;
            Ok(())
        }
    }
}
