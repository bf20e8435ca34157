// The records that follow a system's header, and how one is read.
ghost use Rattle.std.specs.Prelude.{◌≡◌};
ghost use Rattle.filing.specs.Format.{mark, entry_of, entry_at};

use crate::fault::Cause;
use systems::label::Label;

// what the two bytes of a mark name
#[derive(Clone, Copy)]
pub enum Mark {
    System,
    Move,
    Open,
    Label,
}

#[derive(Clone, Copy)]
pub enum Record<L> {
    Move(u8, u8, u8),
    Open(u8, u8),
    Label(u8, L),
}

// The record at a place and where the next begins, or nothing at the end and before the next system. The bytes and the place are two, since a
// place may lie past the end.
#[tactic(auto, unfolding(crate::specs::Format::entry_at))]
pub fn entry_at<L: Label>(bytes: &[u8], at: usize) -> Result<Option<(Record<L>, usize)>, Cause>
    ensures { result ≡ entry_at L.Label.WIDTH L.Label.read bytes.now at }
{
    if bytes.len() <= at {
        return Ok(None);
    }
    match mark_at(bytes, at)? {
        Mark::System => Ok(None),
        Mark::Move => move_at(bytes, at),
        Mark::Open => open_at(bytes, at),
        Mark::Label => label_at(bytes, at),
    }
}

fn move_at<L: Label>(bytes: &[u8], at: usize) -> Result<Option<(Record<L>, usize)>, Cause>
    ensures { result ≡ entry_of L.Label.WIDTH L.Label.read bytes.now at Mark.Move }
{
    let Some([_, _, p, a, t, ..]) = bytes.get(at..) else {
        return Err(Cause::CutShort);
    };
    Ok(Some((Record::Move(*p, *a, *t), at + 5)))
}

fn open_at<L: Label>(bytes: &[u8], at: usize) -> Result<Option<(Record<L>, usize)>, Cause>
    ensures { result ≡ entry_of L.Label.WIDTH L.Label.read bytes.now at Mark.Open }
{
    let Some([_, _, p, a, ..]) = bytes.get(at..) else {
        return Err(Cause::CutShort);
    };
    Ok(Some((Record::Open(*p, *a), at + 4)))
}

fn label_at<L: Label>(bytes: &[u8], at: usize) -> Result<Option<(Record<L>, usize)>, Cause>
    ensures { result ≡ entry_of L.Label.WIDTH L.Label.read bytes.now at Mark.Label }
{
    match bytes.get(at..) {
        Some([_, _, p, label @ ..]) if L::WIDTH <= label.len() => {
            let next = at + 3 + L::WIDTH;
            let label = L::from_bytes(&bytes[at + 3..next]);
            Ok(Some((Record::Label(*p, label), next)))
        }
        _ => Err(Cause::CutShort),
    }
}

pub fn mark_at(bytes: &[u8], at: usize) -> Result<Mark, Cause>
    ensures { result ≡ mark bytes.now at }
{
    match bytes.get(at..) {
        Some([b'S', b'Y', ..]) => Ok(Mark::System),
        Some([b'M', b'V', ..]) => Ok(Mark::Move),
        Some([b'O', b'P', ..]) => Ok(Mark::Open),
        Some([b'L', b'B', ..]) => Ok(Mark::Label),
        Some([_, _, ..]) => Err(Cause::UnknownMark),
        _ => Err(Cause::CutShort),
    }
}
