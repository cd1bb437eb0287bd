//! Functions that call each other.

use itoa::Buffer;
use std::alloc::Global;
use zim_fault::{Bytes, Memory};
use zim_shown::Shown;

/// Puts the name of a function of the chain at the end.
fn put_name(number: u32, to: &mut Shown) {
    to.put(b"f");
    to.put(Buffer::new().format(number).as_bytes());
}

/// The definition of a function of the chain, which calls the one before, if there is one.
pub fn definition(alloc: Global, number: u32) -> Result<Bytes, Memory> {
    let mut text = Shown::new(alloc, false);
    text.put(b"defnumb ");
    put_name(number, &mut text);
    text.put(b" ( a ) := ");
    if number > 1 {
        put_name(u32::saturating_sub(number, 1), &mut text);
        text.put(b" ( a ) ;");
    } else {
        text.put(b"a ;");
    }
    text.finish()
}
