//! The text that a tree is shown as.

use itoa::Buffer;
use std::alloc::Global;
use zim_fault::{Bytes, Memory, Place};

/// A text that grows, with or without the places of a tree. After a put that failed nothing more is put,
/// so who shows a large tree looks at the outcome once, at the end.
#[derive(Drop)]
pub struct Shown {
    text: Bytes,
    places: bool,
    outcome: Result<(), Memory>,
}

impl Shown {
    pub fn new(alloc: Global, places: bool) -> Shown {
        Shown {
            text: Bytes::new(alloc),
            places,
            outcome: Ok(()),
        }
    }

    /// Puts a text at the end, unless an earlier put failed.
    pub fn put(&mut self, text: &[u8]) {
        if let Ok(()) = self.outcome {
            self.outcome = self.text.extend_from_slice(text);
        }
    }

    /// Puts the line of a place at the end, behind `@`, where places are shown.
    pub fn put_place(&mut self, place: Place) {
        if self.places {
            self.put(b"@");
            self.put(Buffer::new().format(place.line).as_bytes());
        }
    }

    /// Puts a text and its place at the end.
    pub fn put_at(&mut self, text: &[u8], place: Place) {
        self.put(text);
        self.put_place(place);
    }

    /// Puts one of two texts at the end: the second where the flag is up.
    pub fn put_one(&mut self, flag: bool, no: &[u8], yes: &[u8]) {
        self.put(if flag { yes } else { no });
    }

    /// The text, if no put failed.
    pub fn finish(self) -> Result<Bytes, Memory> {
        let Shown { text, outcome, .. } = self;
        outcome?;
        Ok(text)
    }
}
