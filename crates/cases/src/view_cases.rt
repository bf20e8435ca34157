// Views: the layers, the weak view and the tabled system.
use crate::filed::{A, B, BARE, ranked};
use comparison::refusal::Refusal;
use comparison::settling::settle;
use comparison::stage::Verdict;
use comparison::strike::Strike;
use filing::filed::Filed;
use std::test::Fail;
use systems::kinds::Rank;
use systems::system::System;
use views::layers::{AllClosed, AllOpen};
use views::tabled::{over, tabulate};
use views::weak::weak_view;

// whether the verdict is yes, and the start pair's strike, where both starts are 0
fn verdict<F: System<Rank>, S: System<Rank>>(
    first: &F,
    second: &S,
) -> Result<(bool, Strike), Refusal> {
    let mut sheet = [Strike::BLANK; 16];
    let settled = settle(first, second, &mut sheet)?;
    Ok((matches!(settled.verdict, Verdict::Yes(_)), sheet[0]))
}

// the same, weakly
fn weakly(first: &'static [u8], second: &'static [u8]) -> Result<(bool, Strike), Refusal> {
    verdict(
        &weak_view::<Rank, Filed<Rank>>(ranked(first)),
        &weak_view::<Rank, Filed<Rank>>(ranked(second)),
    )
}

const SILENT_LOOP: &[u8] = b"SY\x01\x01\x00\x00MV\x00\x00\x00";

const SILENT_CYCLE: &[u8] = b"SY\x02\x01\x00\x00MV\x00\x00\x01MV\x01\x00\x00";

#[test]
fn layers_over_both(rt: HostRuntime) {
    assert!(rt; matches!(verdict(&ranked(A), &ranked(B)), Ok((false, _))));
    assert!(rt;
        matches!(
            verdict(&AllOpen::over(ranked(A)), &AllOpen::over(ranked(B))),
            Ok((true, _))
        )
    );
    assert!(rt;
        matches!(
            verdict(&AllClosed::over(ranked(A)), &AllClosed::over(ranked(B))),
            Ok((false, _))
        )
    );
    assert_eq!(rt; AllOpen::over(ranked(A)).open_on(2), 0b111);
    assert_eq!(rt; AllOpen::over(ranked(A)).open_on(3), 0);
}

// a silent loop leaves everything open: `[0]tt` tells a bare state from it
#[test]
fn silent_loops_diverge(rt: HostRuntime) {
    assert!(rt; matches!(weakly(SILENT_LOOP, BARE), Ok((true, _))));
    assert_eq!(rt;
        weakly(BARE, SILENT_LOOP),
        Ok((
            false,
            Strike {
                round: 1,
                kind: 2,
                action: 0,
                target: 0,
            },
        ))
    );
    assert!(rt; matches!(weakly(SILENT_CYCLE, BARE), Ok((true, _))));
    assert_eq!(rt;
        weakly(BARE, SILENT_CYCLE),
        Ok((
            false,
            Strike {
                round: 1,
                kind: 2,
                action: 0,
                target: 0,
            },
        ))
    );
}

// The two-place buffer (1 in, 2 out) against one that goes round silently when it is full: `<1>[1]tt` tells them apart.
#[test]
fn the_two_place_buffer(rt: HostRuntime) {
    let buffer = b"SY\x03\x03\x00\x00MV\x00\x01\x01MV\x01\x01\x02MV\x02\x02\x01MV\x01\x02\x00";
    let design = b"SY\x03\x03\x00\x00MV\x00\x01\x01MV\x01\x01\x02MV\x01\x02\x00MV\x02\x00\x02";
    assert_eq!(rt;
        weakly(buffer, design),
        Ok((
            false,
            Strike {
                round: 2,
                kind: 1,
                action: 1,
                target: 1,
            },
        ))
    );
}

#[test]
fn a_weak_view_goes_through_silent_moves(rt: HostRuntime) {
    let view = weak_view::<Rank, Filed<Rank>>(ranked(
        b"SY\x05\x02\x00\x00MV\x00\x00\x01MV\x01\x01\x02MV\x02\x00\x03MV\x03\x00\x03OP\x04\x01",
    ));
    assert_eq!(rt; view.reach(0, 0), 0b00011);
    assert_eq!(rt; view.reach(0, 1), 0b01100);
    assert_eq!(rt; view.reach(4, 0), 0b10000);
    assert_eq!(rt; view.reach(4, 1), 0);
    assert_eq!(rt; view.open_on(0), 0b10);
    assert_eq!(rt; view.open_on(2), 0b11);
    assert_eq!(rt; view.open_on(4), 0);
    assert_eq!(rt; view.reach(5, 0), 0);
}

#[test]
fn tables_answer_as_what_they_copy(rt: HostRuntime) -> Result<(), Fail> {
    let system = ranked(
        b"SY\x03\x02\x01\x00MV\x00\x01\x01MV\x00\x01\x02MV\x01\x00\x02OP\x02\x01LB\x01\x07\x00",
    );
    let mut moves = [9u64; 7];
    let mut marks = [9u32; 4];
    let mut labels = [Rank { value: 9 }; 4];
    assert!(rt; tabulate(&system, &mut moves[0..5], &mut marks, &mut labels).is_err());
    assert_eq!(rt; moves, [9; 7]);
    let Ok(shape) = tabulate(&system, &mut moves, &mut marks, &mut labels) else {
        return Err(Fail::new("short"));
    };
    assert_eq!(rt; moves, [0, 0b110, 0b100, 0, 0, 0, 9]);
    assert_eq!(rt; marks, [0, 0, 0b10, 9]);
    let table = over(shape, &moves, &marks, &labels);
    assert_eq!(rt; table.reach(0, 1), 0b110);
    assert_eq!(rt; table.open_on(2), 0b10);
    assert_eq!(rt; System::<Rank>::start(&table), 1);
    let plain: Rank = table.label(0);
    assert_eq!(rt; plain.value, 0);
    let absent: Rank = table.label(77);
    assert_eq!(rt; absent.value, 7);
    Ok(())
}
