// Filing: each fault with its byte, the bounds, repeated records, and what a refusal leaves.
use filing::filed::Filed;
use filing::filing::file;
use systems::kinds::{Permit, Rank};
use systems::label::Label;
use systems::system::System;

// where filing ends, or the fault's number and byte, which are what the cases below state
fn end_of<L: Label>(bytes: &[u8], begin: usize) -> Result<usize, (u8, usize)> {
    let mut place: Filed<L> = Filed::lone();
    file(bytes, begin, &mut place).map_err(|fault| (u8::from(fault.cause), fault.byte))
}

#[test]
fn each_fault_has_its_byte(rt: HostRuntime) {
    assert_eq!(rt; end_of::<Rank>(b"", 0), Err((1, 0)));
    assert_eq!(rt; end_of::<Rank>(b"MV\x00\x01\x01", 0), Err((1, 0)));
    assert_eq!(rt; end_of::<Rank>(b"S", 0), Err((1, 0)));
    assert_eq!(rt; end_of::<Rank>(b"SY\x03\x03\x00\x00XY\x00", 0), Err((2, 6)));
    assert_eq!(rt; end_of::<Rank>(b"SY\x03\x03\x00\x00M", 0), Err((3, 6)));
    assert_eq!(rt; end_of::<Rank>(b"SY\x03\x03\x00\x00X", 0), Err((3, 6)));
    assert_eq!(rt;
        end_of::<Rank>(b"SY\x03\x03\x00\x00MV\x00\x01\x01MV\x00\x03\x01", 0),
        Err((5, 11))
    );
    assert_eq!(rt;
        end_of::<Rank>(b"SY\x03\x03\x00\x00MV\x03\x01\x01", 0),
        Err((5, 6))
    );
    assert_eq!(rt;
        end_of::<Rank>(b"SY\x03\x03\x00\x00OP\x00\x03", 0),
        Err((5, 6))
    );
    assert_eq!(rt;
        end_of::<Rank>(b"SY\x03\x03\x00\x00LB\x03\x00\x00", 0),
        Err((5, 6))
    );
    assert_eq!(rt;
        end_of::<Rank>(b"SY\x03\x03\x00\x00LB\x01\x00\x00LB\x01\x00\x00", 0),
        Err((6, 11))
    );
}

#[test]
fn the_earliest_faulty_record_counts(rt: HostRuntime) {
    assert_eq!(rt;
        end_of::<Rank>(b"SY\x03\x03\x00\x00MV\x09\x01\x01XY", 0),
        Err((5, 6))
    );
    assert_eq!(rt;
        end_of::<Rank>(b"SY\x03\x03\x00\x00XYMV\x09\x01\x01", 0),
        Err((2, 6))
    );
}

#[test]
fn headers_have_bounds(rt: HostRuntime) {
    assert_eq!(rt; end_of::<Rank>(b"SY\x40\x20\x3f\x00", 0), Ok(6));
    assert_eq!(rt; end_of::<Rank>(b"SY\x41\x20\x00\x00", 0), Err((4, 0)));
    assert_eq!(rt; end_of::<Rank>(b"SY\x00\x01\x00\x00", 0), Err((4, 0)));
    assert_eq!(rt; end_of::<Rank>(b"SY\x01\x21\x00\x00", 0), Err((4, 0)));
    assert_eq!(rt; end_of::<Rank>(b"SY\x01\x00\x00\x00", 0), Err((4, 0)));
    assert_eq!(rt; end_of::<Rank>(b"SY\x03\x03\x03\x00", 0), Err((4, 0)));
    assert_eq!(rt; end_of::<Rank>(b"SY\x03\x03\x00\x01", 0), Err((4, 0)));
    assert_eq!(rt; end_of::<Rank>(b"SY\x03\x03\x00\x02", 0), Err((4, 0)));
    assert_eq!(rt; end_of::<Permit>(b"SY\x03\x03\x00\x01", 0), Ok(6));
    assert_eq!(rt; end_of::<Permit>(b"SY\x03\x03\x00\x00", 0), Err((4, 0)));
}

#[test]
fn the_last_byte_is_cut(rt: HostRuntime) {
    assert_eq!(rt; end_of::<Rank>(b"SY\x03\x03\x00", 0), Err((3, 0)));
    assert_eq!(rt;
        end_of::<Rank>(b"SY\x03\x03\x00\x00MV\x00\x01", 0),
        Err((3, 6))
    );
    assert_eq!(rt; end_of::<Rank>(b"SY\x03\x03\x00\x00OP\x00", 0), Err((3, 6)));
    assert_eq!(rt;
        end_of::<Rank>(b"SY\x03\x03\x00\x00LB\x00\x07", 0),
        Err((3, 6))
    );
    assert_eq!(rt;
        end_of::<Permit>(b"SY\x03\x03\x00\x01LB\x00\x01\x02\x03\x04\x05\x06\x07", 0),
        Err((3, 6))
    );
    assert_eq!(rt;
        end_of::<Permit>(
            b"SY\x03\x03\x00\x01LB\x00\x01\x02\x03\x04\x05\x06\x07\x08",
            0,
        ),
        Ok(17)
    );
}

// a system ends before the next `SY`, and a fault in the second has its byte in the whole
#[test]
fn two_systems_are_filed_in_turn(rt: HostRuntime) {
    let both = b"SY\x03\x03\x00\x00MV\x00\x01\x01SY\x03\x03\x00\x00MV\x00\x01\x07";
    assert_eq!(rt; end_of::<Rank>(both, 0), Ok(11));
    assert_eq!(rt; end_of::<Rank>(both, 11), Err((5, 17)));
    assert_eq!(rt; end_of::<Rank>(both, 22), Err((1, 22)));
    assert_eq!(rt; end_of::<Rank>(both, 1_000_000), Err((1, 1_000_000)));
}

#[test]
fn repeated_records_count_once(rt: HostRuntime) {
    let mut place: Filed<Rank> = Filed::lone();
    let bytes =
        b"SY\x03\x03\x02\x00MV\x00\x01\x01OP\x00\x02MV\x00\x01\x01OP\x00\x02MV\x00\x01\x02LB\x01\x05\x01";
    assert_eq!(rt; file(bytes, 0, &mut place).is_ok(), true);
    assert_eq!(rt; place.states(), 3);
    assert_eq!(rt; place.actions(), 3);
    assert_eq!(rt; place.start(), 2);
    assert_eq!(rt; place.reach(0, 1), 0b110);
    assert_eq!(rt; place.reach(1, 1), 0);
    assert_eq!(rt; place.reach(9, 1), 0);
    assert_eq!(rt; place.reach(0, 9), 0);
    assert_eq!(rt; place.open_on(0), 0b100);
    assert_eq!(rt; place.open_on(1), 0);
    assert_eq!(rt; place.open_on(9), 0);
    assert_eq!(rt; place.label(1).value, 0x105);
    assert_eq!(rt; place.label(0).value, 0);
    assert_eq!(rt; place.label(200).value, 0);
}

// a place begins as a lone state
#[test]
fn a_refusal_leaves_the_place(rt: HostRuntime) {
    let mut place: Filed<Rank> = Filed::lone();
    assert_eq!(rt; place.states(), 1);
    assert!(rt; file(b"SY\x02\x01\x01\x00", 0, &mut place).is_ok());
    assert!(rt; file(b"SY\x03\x01\x03\x00", 0, &mut place).is_err());
    assert_eq!(rt; place.states(), 2);
}
