//! Parts of texts, and two texts one after the other.
ghost use Rattle.std.specs.Prelude.{◌≡◌, ◌++◌, IfOk};
ghost use Rattle.zim_functions.specs.Texts as exact;

use std::alloc::Global;
use zim_fault::{Bytes, Memory};

// At most so many bytes from a position on.
fn part(text: &[u8], from: usize, len: usize) -> &[u8]
    ensures { result.now ≡ exact.substring text.now from len }
{
    let begin = from.min(text.len());
    let rest = &text[begin..];
    let end = len.min(rest.len());
    &rest[..end]
}

/// At most `len` bytes of a text from byte `from` on, which is counted from 0: fewer where the text ends before,
/// and none where it has no byte `from`.
pub fn substring(alloc: Global, text: &Bytes, from: usize, len: usize) -> Result<Bytes, Memory>
    ensures { IfOk result (λ made. made ≡ exact.substring text.now from len) }
{
    Bytes::from_slice(alloc, part(text.as_slice(), from, len))
}

/// The bytes of a and then those of b.
pub fn join(alloc: Global, a: &Bytes, b: &Bytes) -> Result<Bytes, Memory>
    ensures { IfOk result (λ made. made ≡ a.now ++ b.now) }
{
    let mut made = Bytes::from_slice(alloc, a.as_slice())?;
    made.extend_from_slice(b.as_slice())?;
    Ok(made)
}
