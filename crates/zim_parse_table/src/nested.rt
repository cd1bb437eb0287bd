//! Statements that are nested deeply.

use std::alloc::Global;
use zim_fault::{Bytes, Memory};
use zim_shown::Shown;

/// Puts a text at the end so often.
fn put_times(times: u32, text: &str, to: &mut Shown) {
    for _time in 0..times {
        to.put(text.as_bytes());
    }
}

/// `param p := ` and then so often a beginning, a middle and so often an end, and `;`: the parts are a count, a
/// beginning, a middle and an end, with `@` between them.
pub fn nested_text(alloc: Global, parts: &str) -> Result<Bytes, Memory> {
    let mut given = Vec::new(alloc);
    for part in parts.split('@') {
        given.push(part)?;
    }
    let mut text = Shown::new(alloc, false);
    if let [times, beginning, middle, end] = given.as_slice() {
        let times = times.trim().parse::<u32>().unwrap_or(0);
        text.put(b"param p := ");
        put_times(times, beginning, &mut text);
        text.put(middle.as_bytes());
        put_times(times, end, &mut text);
        text.put(b" ;");
    }
    text.finish()
}
