// Printing what was read and what was found.
use formulas::judging::judge;
use formulas::node::Node;
use std::io;
use systems::kinds::Rank;
use systems::masks::contains;
use systems::system::System;

// what was read: the counts, the start, the moves and the open marks
pub(crate) fn show_system<S: System<Rank>>(
    rt: &HostRuntime,
    name: &str,
    system: &S,
    end: usize,
) -> io::Result<()> {
    let states = system.states();
    let actions = system.actions();
    let start = system.start();
    println!(rt; "\n{name}: {end} bytes, {states} states, {actions} actions, start {start}")?;
    for p in 0..states {
        show_state(rt, system, p)?;
    }
    Ok(())
}

fn show_state<S: System<Rank>>(rt: &HostRuntime, system: &S, p: u8) -> io::Result<()> {
    let rank = system.label(p).value;
    print!(rt; "  state {p}, rank {rank}:")?;
    for a in 0..system.actions() {
        show_each(system.reach(p, a), |t| print!(rt; " -{a}-> {t}"))?;
    }
    show_each(u64::from(system.open_on(p)), |a| print!(rt; " open on {a}"))?;
    println!(rt; "")
}

// shows each member of a set, the lowest first
fn show_each<F: Fn(u8) -> io::Result<()>>(set: u64, show: F) -> io::Result<()>
    requires { F.IsAlwaysCallable show }
{
    for member in (0..64).filter(|&i| contains(set, i)) {
        show(member)?;
    }
    Ok(())
}

// three clauses, and the states of both systems that satisfy each
pub(crate) fn show_clauses<A: System<Rank>, B: System<Rank>>(
    rt: &HostRuntime,
    specification: &A,
    design: &B,
) -> io::Result<()> {
    let nodes = [
        Node::True,
        Node::False,
        Node::Diamond(2, 0),
        Node::Diamond(3, 0),
        Node::And(2, 3),
        Node::Diamond(1, 4),
        Node::Label(Rank { value: 2 }),
        Node::Box(5, 1),
    ];
    let mut first = [0; 8];
    let mut second = [0; 8];
    if judge(specification, &nodes, &mut first).is_err()
        || judge(design, &nodes, &mut second).is_err()
    {
        return Ok(());
    }
    println!(rt; "\nClauses, with the states that satisfy them")?;
    show_clause(
        rt,
        "<1>(<2>tt and <3>tt): a card may be accepted or rejected",
        first[5],
        second[5],
    )?;
    show_clause(
        rt,
        "label 2: watched at rank 2 or more",
        first[6],
        second[6],
    )?;
    show_clause(
        rt,
        "[5]ff: tampering surely does nothing",
        first[7],
        second[7],
    )
}

fn show_clause(rt: &HostRuntime, clause: &str, first: u64, second: u64) -> io::Result<()> {
    println!(rt; "  {clause}")?;
    print!(rt; "    specification:")?;
    show_set(rt, first)?;
    print!(rt; "    design:")?;
    show_set(rt, second)
}

fn show_set(rt: &HostRuntime, set: u64) -> io::Result<()> {
    show_each(set, |p| print!(rt; " {p}"))?;
    println!(rt; "")
}
