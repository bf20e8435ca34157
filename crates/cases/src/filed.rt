// Systems filed from bytes, for the tests of every kind.
use filing::filed::Filed;
use filing::filing::file;
use systems::kinds::Rank;
use systems::label::Label;

// A: 0 -1-> 1 -2-> 2; B: A with 0 -1-> 2; and a bare state
pub(crate) const A: &[u8] = b"SY\x03\x03\x00\x00MV\x00\x01\x01MV\x01\x02\x02";

pub(crate) const B: &[u8] = b"SY\x03\x03\x00\x00MV\x00\x01\x01MV\x00\x01\x02MV\x01\x02\x02";

pub(crate) const BARE: &[u8] = b"SY\x01\x01\x00\x00";

// the system that stands in the bytes from their beginning on
pub(crate) fn filed<L: Label>(bytes: &'static [u8]) -> Filed<'static, L> {
    let mut place = Filed::lone();
    let _ = file(bytes, 0, &mut place);
    place
}

// the same, with ranks for labels
pub(crate) fn ranked(bytes: &'static [u8]) -> Filed<'static, Rank> {
    filed(bytes)
}
