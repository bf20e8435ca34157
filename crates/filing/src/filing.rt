// Filing: the bytes of a system are checked, record by record, and the system is put in the place given.
ghost use Rattle.std.specs.Prelude.{◌≡◌, ◌≤◌, ◌||◌, [], length};
ghost use Rattle.systems.specs.Sets.{has, set_of};
ghost use Rattle.filing.specs.Contents.{contents, records_from, with_header, objection, says_label};
ghost use Rattle.filing.specs.Place.{end_of, Leaves};
ghost use Rattle.filing.specs.Steps.{unless};

use crate::fault::{Cause, Fault};
use crate::filed::Filed;
use crate::header::{Header, header_at};
use crate::record::{Record, entry_at};
use systems::label::Label;
use systems::masks::{contains, insert};

// Files the system that begins at a byte, and answers where it ends. Bytes that are refused leave the place as it was.
pub fn file<'a, L: Label>(
    bytes: &'a [u8],
    begin: usize,
    place: &mut Filed<'a, L>,
) -> Result<usize, Fault>
    ensures answers { result ≡ end_of (contents L.Label.CODE L.Label.WIDTH L.Label.read bytes.now begin) }
    ensures leaves { Leaves L.Label.plain L.Label.read bytes.now begin (contents L.Label.CODE L.Label.WIDTH L.Label.read bytes.now begin) place.old place.new }
{
    let header = header_at::<L>(bytes, begin).map_err(|cause| cause.at(begin))?;
    let end = records_end::<L>(bytes, header, begin + 6)?;
    *place = Filed::new(bytes, begin, header);
    Ok(end)
}

// where the records of a system end, if none is refused
fn records_end<L: Label>(bytes: &[u8], header: Header, first: usize) -> Result<usize, Fault>
    requires { header.states ≤ 64 }
    ensures { result ≡ end_of (with_header header (records_from (length bytes.now) L.Label.WIDTH L.Label.read bytes.now header [] first)) }
{
    let mut labelled = 0;
    let mut at = first;
    // Not by the iterator of the records: it gives neither the fault of one that cannot be read nor where each begins.
    while let Some((said, next)) = entry_at::<L>(bytes, at).map_err(|cause| cause.at(at))? {
        labelled = labelled_after(header, labelled, &said).map_err(|cause| cause.at(at))?;
        at = next;
    }
    Ok(at)
}

// the states that have a label after a record, unless there is an objection to it
fn labelled_after<L: Copy>(header: Header, labelled: u64, said: &Record<L>) -> Result<u64, Cause>
    ensures { result ≡ unless (objection header (has labelled) said.now) (set_of 64 (λ p. has labelled p || says_label said.now p)) }
{
    match *said {
        Record::Move(p, a, t) if p < header.states && a < header.actions && t < header.states => {
            Ok(labelled)
        }
        Record::Open(p, a) if p < header.states && a < header.actions => Ok(labelled),
        Record::Label(p, _) if p < header.states => {
            if contains(labelled, p) {
                Err(Cause::SecondLabel)
            } else {
                Ok(insert(labelled, p))
            }
        }
        _ => Err(Cause::Absent),
    }
}
