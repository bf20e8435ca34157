// Reading a system's records, one after another.
ghost use Rattle.std.specs.Iterator.{YieldsFirst, item_count};

use crate::record::{Record, entry_at};
use std::marker::PhantomData;
use systems::label::Label;

// the records that stand in bytes from a place on, up to the end of the system or the first that cannot be read
#[derive(Drop)]
pub struct Records<'a, L: Label> {
    pub bytes: &'a [u8],
    pub at: usize,
    pub labels: PhantomData<L>,
}

impl<'a, L: Label> Iterator for Records<'a, L> {
    type Item = Record<L>;

    ghost use Rattle.filing.specs.Reading.{left};

    ghost next_gives = { YieldsFirst (left L.Label.WIDTH L.Label.read) };

    ghost remaining = { item_count (left L.Label.WIDTH L.Label.read) };

    fn next(&mut self) -> Option<Record<L>> {
        let (said, next) = entry_at::<L>(self.bytes, self.at).unwrap_or(None)?;
        self.at = next;
        Some(said)
    }
}
