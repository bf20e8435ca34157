// The files of the pair.

// 0 idle, 1 checking a card, 2 barrier raised, 3 card rejected. What tampering does is left open until the barrier is raised or
// the card rejected. A raised barrier is watched at rank 2.
pub(crate) const SPECIFICATION: &[u8] = b"SY\x04\x06\x00\x00\
    MV\x00\x01\x01\
    MV\x01\x02\x02\
    MV\x01\x03\x03\
    MV\x02\x04\x00\
    MV\x03\x01\x01\
    OP\x00\x05\
    OP\x01\x05\
    LB\x02\x02\x00";

// The same, with an alarm (4) that tampering sets off and a card ends. A raised barrier is watched at rank 3.
pub(crate) const DESIGN: &[u8] = b"SY\x05\x06\x00\x00\
    MV\x00\x01\x01\
    MV\x01\x02\x02\
    MV\x01\x03\x03\
    MV\x02\x04\x00\
    MV\x03\x01\x01\
    MV\x00\x05\x04\
    MV\x01\x05\x04\
    MV\x04\x01\x01\
    LB\x02\x03\x00\
    LB\x04\x01\x00";

// the specification, its second move from a state that it has not
pub(crate) const DAMAGED: &[u8] = b"SY\x04\x06\x00\x00\
    MV\x00\x01\x01\
    MV\x09\x02\x02\
    LB\x02\x02\x00";
