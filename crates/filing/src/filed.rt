// A system that stands in file bytes.
ghost use Rattle.std.specs.Prelude.{◌≡◌, ◌+◌, true};
ghost use Rattle.filing.specs.Accepted.{has_header, shape, lone, meaning_at};
ghost use Rattle.filing.specs.Standing.{accepted_bounded};

use crate::header::Header;
use crate::record::Record;
use crate::records::Records;
use std::alloc::AllocError;
use std::marker::PhantomData;
use systems::label::Label;
use systems::masks::{as_actions, insert};
use systems::system::System;

// The bytes were accepted from `begin` on, with this header.
pub struct Filed<'a, L: Label> {
    bytes: &'a [u8],
    begin: usize,
    header: Header,
    labels: PhantomData<L>,
    ghost accepted: { has_header header (shape L.Label.WIDTH bytes.now begin) ≡ true },
}

// By hand: `derive` and `derive_where` were tried and are refused here, where the ghost field names the label kind.
impl<'a, L: Label> Copy for Filed<'a, L> {}

impl<'a, L: Label> Clone for Filed<'a, L> {
    ghost is_clone = { λ s copy. copy ≡ s };

    ghost is_infallible = { λ _. Unit {0} };

    fn clone(&self) -> Result<Self, AllocError> {
        Ok(*self)
    }
}

impl<'a, L: Label> Filed<'a, L> {
    // a system to begin with, before any file is filed
    pub fn lone() -> Self
        ensures { meaning_at L.Label.plain L.Label.read L.Label.WIDTH result.bytes.now result.begin ≡ lone L.Label.plain }
    {
        let header = Header {
            states: 1,
            actions: 1,
            start: 0,
        };
        Filed::new(b"SY\x01\x01\x00\x00", 0, header)
    }

    // the system in bytes that have been accepted
    pub(crate) fn new(bytes: &'a [u8], begin: usize, header: Header) -> Self
        requires { has_header header (shape L.Label.WIDTH bytes.now begin) ≡ true }
        ensures stands { result.bytes.now ≡ bytes.now }
        ensures begins { result.begin ≡ begin }
    {
        Filed {
            bytes,
            begin,
            header,
            labels: PhantomData,
        }
    }

    fn records(&self) -> Records<'a, L>
        ensures stands { result.bytes.now ≡ self.now.bytes.now }
        ensures begins { result.at ≡ self.now.begin + 6 }
    {
        Records {
            bytes: self.bytes,
            at: self.begin + 6,
            labels: PhantomData,
        }
    }
}

#[tactic(auto, using(crate::proofs::Asking::own_meaning))]
impl<'a, L: Label> System<L> for Filed<'a, L> {
    ghost meaning = { λ s. meaning_at L.Label.plain L.Label.read L.Label.WIDTH s.bytes.now s.begin };

    ghost bounded = { λ s. accepted_bounded L.Label.read s.header L.Label.WIDTH s.bytes.now s.begin s.accepted L.Label.plain };

    fn states(&self) -> u8 {
        self.header.states
    }

    fn actions(&self) -> u8 {
        self.header.actions
    }

    fn start(&self) -> u8 {
        self.header.start
    }

    fn reach(&self, p: u8, a: u8) -> u64 {
        self.records()
            .filter_map(|said| match said {
                Record::Move(from, action, to) if from == p && action == a => Some(to),
                _ => None,
            })
            .fold(0, insert)
    }

    fn open_on(&self, p: u8) -> u32 {
        as_actions(
            self.records()
                .filter_map(|said| match said {
                    Record::Open(state, action) if state == p => Some(action),
                    _ => None,
                })
                .fold(0, insert),
        )
    }

    fn label(&self, p: u8) -> L {
        let header = self.header;
        let state = if p < header.states { p } else { header.start };
        self.records()
            .filter_map(|said| match said {
                Record::Label(labelled, label) if state == labelled => Some(label),
                _ => None,
            })
            .last()
            .unwrap_or(L::unlabelled())
    }
}
