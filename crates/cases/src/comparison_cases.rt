// Comparing: the small pairs, every refusal and what it leaves, and the largest sheet.
use crate::filed::{A, B, BARE, filed, ranked};
use comparison::closing::close;
use comparison::opening::begin;
use comparison::refusal::{Refusal, Refused};
use comparison::round::round;
use comparison::run::run;
use comparison::settling::settle;
use comparison::stage::{Open, Verdict};
use comparison::strike::Strike;
use filing::filed::Filed;
use std::test::Fail;
use systems::kinds::Permit;

// A with state 0 open on 1
const A_OPEN: &[u8] = b"SY\x03\x03\x00\x00MV\x00\x01\x01MV\x01\x02\x02OP\x00\x01";

const RANK_1: &[u8] = b"SY\x01\x01\x00\x00LB\x00\x01\x00";

// whether the verdict is yes, the rounds done and the pairs that they struck
fn settled(
    first: &'static [u8],
    second: &'static [u8],
    sheet: &mut [Strike],
) -> Result<(bool, u32, u32), Refusal> {
    let settled = settle(&ranked(first), &ranked(second), sheet)?;
    Ok((
        matches!(settled.verdict, Verdict::Yes(_)),
        settled.rounds,
        settled.struck,
    ))
}

#[test]
fn small_pairs(rt: HostRuntime) {
    let mut sheet = [Strike::BLANK; 9];
    assert_eq!(rt; settled(A, B, &mut sheet), Ok((false, 3, 7)));
    assert_eq!(rt; settled(A_OPEN, B, &mut sheet), Ok((true, 2, 6)));
    assert_eq!(rt; unstruck(&sheet), 3);
    assert_eq!(rt; settled(B, A_OPEN, &mut sheet).is_ok(), true);
    assert_eq!(rt; sheet[0].kind, 2);
    assert_eq!(rt; settled(B, A, &mut sheet).is_ok(), true);
    assert_eq!(rt; sheet[0].kind, 1);
    assert_eq!(rt; settled(BARE, BARE, &mut sheet), Ok((true, 1, 0)));
    assert_eq!(rt; settled(RANK_1, BARE, &mut sheet), Ok((false, 1, 0)));
    assert_eq!(rt; settled(BARE, RANK_1, &mut sheet), Ok((true, 1, 0)));
}

// the cells that are blank
fn unstruck(sheet: &[Strike]) -> usize {
    sheet.iter().filter(|cell| **cell == Strike::BLANK).count()
}

#[test]
fn permits_that_neither_contains(rt: HostRuntime) {
    let first: Filed<Permit> = filed(b"SY\x01\x01\x00\x01LB\x00\x03\x00\x00\x00\x00\x00\x00\x00");
    let second: Filed<Permit> = filed(b"SY\x01\x01\x00\x01LB\x00\x05\x00\x00\x00\x00\x00\x00\x00");
    let mut sheet = [Strike::BLANK; 1];
    assert!(rt;
        matches!(settle(&first, &second, &mut sheet), Ok(s) if matches!(s.verdict, Verdict::No(_)))
    );
    assert!(rt;
        matches!(settle(&second, &first, &mut sheet), Ok(s) if matches!(s.verdict, Verdict::No(_)))
    );
    assert!(rt;
        matches!(settle(&first, &first, &mut sheet), Ok(s) if matches!(s.verdict, Verdict::Yes(_)))
    );
}

// a run with an allowance, as (rounds, struck), with the comparison
fn ran(
    comparison: Open,
    allowance: u32,
    sheet: &mut [Strike],
) -> (Open, Result<(u32, u32), Refusal>) {
    match run(comparison, &ranked(A), &ranked(B), sheet, allowance) {
        Ok((next, answer)) => (next, Ok(answer)),
        Err(refused) => (refused.comparison, Err(refused.refusal)),
    }
}

#[test]
fn runs_answer_rounds_and_strikes(rt: HostRuntime) -> Result<(), Fail> {
    let mut sheet = [Strike::BLANK; 9];
    let Ok(opened) = begin(&ranked(A), &ranked(B), &mut sheet) else {
        return Err(Fail::new("not opened"));
    };
    let (opened, none) = ran(opened, 0, &mut sheet);
    assert_eq!(rt; none, Ok((0, 0)));
    let (opened, two) = ran(opened, 2, &mut sheet);
    assert_eq!(rt; two, Ok((2, 7)));
    let (opened, five) = ran(opened, 5, &mut sheet);
    assert_eq!(rt; five, Ok((1, 0)));
    let (opened, more) = ran(opened, 1, &mut sheet);
    assert_eq!(rt; more.map_err(u8::from), Err(23));
    assert_eq!(rt; opened.rounds(), 3);
    Ok(())
}

// whether a closing said yes
fn closed(comparison: Open, sheet: &[Strike]) -> Result<bool, Refused> {
    let verdict = close(comparison, sheet)?;
    Ok(matches!(verdict, Verdict::Yes(_)))
}

#[test]
fn a_bare_state_is_undecided_before_a_round(rt: HostRuntime) -> Result<(), Fail> {
    let bare = ranked(BARE);
    let mut sheet = [Strike::BLANK; 1];
    let Ok(opened) = begin(&bare, &bare, &mut sheet) else {
        return Err(Fail::new("not opened"));
    };
    let Err(undecided) = closed(opened, &sheet) else {
        return Err(Fail::new("decided"));
    };
    assert_eq!(rt; u8::from(undecided.refusal), 24);
    let Err(short) = closed(undecided.comparison, &sheet[0..0]) else {
        return Err(Fail::new("decided"));
    };
    assert_eq!(rt; u8::from(short.refusal), 22);
    let Ok((still, struck)) = round(short.comparison, &bare, &bare, &mut sheet) else {
        return Err(Fail::new("refused"));
    };
    assert_eq!(rt; struck, 0);
    assert!(rt; matches!(closed(still, &sheet), Ok(true)));
    Ok(())
}

#[test]
fn failing_labels_close_at_once(rt: HostRuntime) -> Result<(), Fail> {
    let mut sheet = [Strike::BLANK; 1];
    let Ok(opened) = begin(&ranked(RANK_1), &ranked(BARE), &mut sheet) else {
        return Err(Fail::new("not opened"));
    };
    assert_eq!(rt; sheet[0].round, 0);
    assert!(rt; matches!(closed(opened, &sheet), Ok(false)));
    Ok(())
}

#[test]
fn openings_are_refused(rt: HostRuntime) {
    let mut sheet = [Strike {
        round: 7,
        kind: 1,
        action: 2,
        target: 3,
    }; 8];
    assert_eq!(rt; settled(A, BARE, &mut sheet).map_err(u8::from), Err(20));
    assert_eq!(rt; settled(A, B, &mut sheet).map_err(u8::from), Err(22));
    assert_eq!(rt; unstruck(&sheet), 0);
    assert_eq!(rt; sheet[7].round, 7);
}

#[test]
fn a_round_wants_its_own_systems_and_sheet(rt: HostRuntime) -> Result<(), Fail> {
    let mut sheet = [Strike::BLANK; 9];
    let Ok(opened) = begin(&ranked(A), &ranked(B), &mut sheet) else {
        return Err(Fail::new("not opened"));
    };
    let Err(other) = round(opened, &ranked(A), &ranked(BARE), &mut sheet) else {
        return Err(Fail::new("accepted"));
    };
    assert_eq!(rt; other.refusal, Refusal::OtherSystems);
    let Err(short) = round(other.comparison, &ranked(A), &ranked(B), &mut sheet[0..8]) else {
        return Err(Fail::new("accepted"));
    };
    assert_eq!(rt; short.refusal, Refusal::SheetShort);
    assert_eq!(rt; short.comparison.rounds(), 0);
    assert_eq!(rt; sheet[0], Strike::BLANK);
    Ok(())
}

// Only foreign writes keep a comparison going: here the start pair is made unstruck before each round.
fn forced_rounds(mut comparison: Open, sheet: &mut [Strike], count: u32) -> Result<Open, Refused> {
    let first = ranked(A);
    let second = ranked(B);
    for _ in 0..count {
        if let Some(start) = sheet.first_mut() {
            *start = Strike::BLANK;
        }
        let (next, _) = round(comparison, &first, &second, sheet)?;
        comparison = next;
    }
    Ok(comparison)
}

#[test]
fn no_round_after_4097(rt: HostRuntime) -> Result<(), Fail> {
    let mut sheet = [Strike::BLANK; 9];
    let Ok(opened) = begin(&ranked(A), &ranked(B), &mut sheet) else {
        return Err(Fail::new("not opened"));
    };
    let Ok(spent) = forced_rounds(opened, &mut sheet, 4097) else {
        return Err(Fail::new("refused"));
    };
    assert_eq!(rt; spent.rounds(), 4097);
    let Err(refused) = forced_rounds(spent, &mut sheet, 1) else {
        return Err(Fail::new("accepted"));
    };
    assert_eq!(rt; u8::from(refused.refusal), 25);
    Ok(())
}

// 64 states in a row against the same with the last one open
const ROW: &[u8] = b"SY\x40\x20\x00\x00MV\x00\x01\x01MV\x01\x1f\x3f";

const ROW_OPEN: &[u8] = b"SY\x40\x20\x00\x00MV\x00\x01\x01MV\x01\x1f\x3fOP\x3f\x1f";

#[test]
fn the_largest_sheet(rt: HostRuntime) {
    let mut sheet = [Strike::BLANK; 4096];
    assert!(rt; matches!(settled(ROW, ROW, &mut sheet), Ok((true, _, _))));
    assert!(rt; matches!(settled(ROW, ROW_OPEN, &mut sheet), Ok((false, 4, _))));
    assert!(rt; matches!(settled(ROW_OPEN, ROW, &mut sheet), Ok((true, _, _))));
    assert_eq!(rt;
        settled(ROW, ROW, &mut sheet[0..4095]).map_err(u8::from),
        Err(22)
    );
}
