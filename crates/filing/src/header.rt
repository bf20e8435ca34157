// A system's header: its counts and its start state.
ghost use Rattle.std.specs.Prelude.{◌≡◌};
ghost use Rattle.filing.specs.Contents.{header_at, header_of};

use crate::fault::Cause;
use crate::record::{Mark, mark_at};
use systems::label::Label;

#[derive(Clone, Copy)]
pub struct Header {
    pub states: u8,
    pub actions: u8,
    pub start: u8,
}

#[tactic(auto, unfolding(crate::specs::Contents::header_at))]
pub fn header_at<L: Label>(bytes: &[u8], at: usize) -> Result<Header, Cause>
    ensures { result ≡ header_at L.Label.CODE bytes.now at }
{
    let Ok(Mark::System) = mark_at(bytes, at) else {
        return Err(Cause::NoSystem);
    };
    let Some([_, _, states, actions, start, code, ..]) = bytes.get(at..) else {
        return Err(Cause::CutShort);
    };
    header_of(L::CODE, *states, *actions, *start, *code)
}

fn header_of(kind: u8, states: u8, actions: u8, start: u8, code: u8) -> Result<Header, Cause>
    ensures { result ≡ header_of kind states actions start code }
{
    if !(1..=64).contains(&states) || !(1..=32).contains(&actions) {
        return Err(Cause::BadSystem);
    }
    if start >= states || code > 1 || code != kind {
        return Err(Cause::BadSystem);
    }
    Ok(Header {
        states,
        actions,
        start,
    })
}
