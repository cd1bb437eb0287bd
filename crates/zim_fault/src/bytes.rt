ghost use Rattle.std.specs.Prelude.{◌≡◌, ◌+◌, ◌≤◌, ◌↔◌, [], ◌∷◌, ◌++◌, length, nat_eq, IsTrue, IfOk, OnOk, OnErr};
ghost use Rattle.std.specs.Cmp.{partial_equiv_from_equiv};
ghost use Rattle.std.specs.Cmp.Lexicographic.{pointwise, bytes_decides, nat_list_eq_equiv};
ghost use Rattle.std.specs.Hash as fed;
ghost use Rattle.std.proofs.Common.{ap};
ghost use Rattle.zim_fault.specs.Bytes.{bytes_held};
ghost use Rattle.zim_fault.specs.declared.bytes.TheConstants.{MOST_INLINE};

use crate::lists::Sequence;
use crate::memory::{Duplicate, Memory};
use std::alloc::Global;
use std::hash::{Hash, Hasher};
use std::marker::Model;

/// The most bytes that stand in the value itself. With them it takes as much room as a vector does.
const MOST_INLINE: usize = 22;

/// At most 22 bytes, which take no memory of their own.
#[derive(Debug, Drop)]
pub(crate) struct Inline {
    length: u8,
    room: [u8; MOST_INLINE],
}

impl Model for Inline {
    ghost use Rattle.std.specs.Prelude.{◌≤◌, ℕ, List, take};
    ghost use Rattle.zim_fault.specs.declared.bytes.TheConstants.{MOST_INLINE};

    ghost Value = { List ℕ };

    ghost view = { λ it. take it.length it.room };

    ghost invariant = { λ it. it.length ≤ MOST_INLINE };
}

impl Inline {
    /// The bytes of two slices, one after the other.
    fn joined(front: &[u8], more: &[u8]) -> Inline
        requires { length front.now + length more.now ≤ MOST_INLINE }
        ensures { result ≡ front.now ++ more.now }
    {
        let middle = front.len();
        let end = middle + more.len();
        let mut room = [0; MOST_INLINE];
        room[..middle].copy_from_slice(front);
        room[middle..end].copy_from_slice(more);
        Inline {
            length: end as u8,
            room,
        }
    }

    fn as_slice(&self) -> &[u8]
        ensures { result.now ≡ self.now }
    {
        &self.room[..self.length as usize]
    }
}

/// Where bytes stand: in the value, or in memory of their own.
#[derive(Debug, Drop)]
pub(crate) enum Held {
    Short(Inline),
    Long(Box<Sequence<u8>>),
}

/// A growable list of bytes that contracts see as the list of them: a name, a text, a line.
///
/// Up to 22 bytes stand in the value itself. Its `==` compares byte by byte, and a copy of it is equal
/// to it.
#[derive(Debug, Drop)]
pub struct Bytes {
    alloc: Global,
    held: Held,
}

impl Model for Bytes {
    ghost use Rattle.std.specs.Prelude.{ℕ, List};
    ghost use Rattle.zim_fault.specs.Bytes.{bytes_held};

    ghost Value = { List ℕ };

    ghost view = { λ it. bytes_held it.held };
}

/// The bytes of two slices, one after the other, in memory of their own where they are too many.
fn hold(alloc: Global, front: &[u8], more: &[u8]) -> Result<Held, Memory>
    ensures { IfOk result (λ it. bytes_held it ≡ front.now ++ more.now) }
{
    if front.len() <= MOST_INLINE && more.len() <= MOST_INLINE - front.len() {
        return Ok(Held::Short(Inline::joined(front, more)));
    }
    let mut items = Sequence::from_slice(alloc, front)?;
    items.extend_from_slice(more)?;
    Ok(Held::Long(Box::new(alloc, items)?))
}

impl Bytes {
    /// The empty list, which takes no memory yet.
    pub fn new(alloc: Global) -> Bytes
        ensures { result ≡ [] }
    {
        Bytes {
            alloc,
            held: Held::Short(Inline::joined(b"", b"")),
        }
    }

    /// The bytes of a slice.
    pub fn from_slice(alloc: Global, bytes: &[u8]) -> Result<Bytes, Memory>
        ensures { IfOk result (λ made. made ≡ bytes.now) }
    {
        Ok(Bytes {
            alloc,
            held: hold(alloc, bytes, b"")?,
        })
    }

    pub fn as_slice(&self) -> &[u8]
        ensures { result.now ≡ self.now }
    {
        match &self.held {
            Held::Short(bytes) => bytes.as_slice(),
            Held::Long(bytes) => bytes.as_slice(),
        }
    }

    /// The bytes as a vector. Where they have memory of their own it is kept.
    pub fn into_vec(self) -> Result<Vec<u8>, Memory>
        ensures { IfOk result (λ bytes. bytes.items ≡ self) }
    {
        let Bytes { alloc, held } = self;
        match held {
            Held::Short(bytes) => Ok(Vec::from_slice(alloc, bytes.as_slice())?),
            Held::Long(bytes) => Ok(Box::into_inner(bytes).into_vec()),
        }
    }

    pub fn len(&self) -> usize
        ensures { result ≡ length self.now }
    {
        self.as_slice().len()
    }

    pub fn is_empty(&self) -> bool
        ensures { IsTrue result ↔ (self.now ≡ []) }
    {
        self.as_slice().is_empty()
    }

    /// Adds a byte at the end. After `Memory` the list is as before.
    pub fn push(&mut self, byte: u8) -> Result<(), Memory>
        ensures ok { OnOk result (self.new ≡ self.old ++ byte ∷ []) }
        ensures err { OnErr result (self.new ≡ self.old) }
    {
        self.extend_from_slice(&[byte])
    }

    /// Adds the bytes of a slice at the end. After `Memory` the list is as before.
    pub fn extend_from_slice(&mut self, more: &[u8]) -> Result<(), Memory>
        ensures ok { OnOk result (self.new ≡ self.old ++ more.now) }
        ensures err { OnErr result (self.new ≡ self.old) }
    {
        match &mut self.held {
            Held::Short(bytes) => {
                self.held = hold(self.alloc, bytes.as_slice(), more)?;
                Ok(())
            }
            Held::Long(bytes) => bytes.as_mut().extend_from_slice(more),
        }
    }
}

impl Duplicate for Bytes {
    fn copy(&self) -> Result<Bytes, Memory> {
        Bytes::from_slice(self.alloc, self.as_slice())
    }
}

impl PartialEq for Bytes {
    ghost eq = { pointwise nat_eq };

    ghost laws = { partial_equiv_from_equiv nat_list_eq_equiv };

    fn eq(&self, other: &Self) -> bool {
        self.as_slice() == other.as_slice()
    }
}

impl Eq for Bytes {
    ghost laws = { nat_list_eq_equiv };
}

impl Hash for Bytes {
    ghost hash_input = { fed.slice fed.u8 };

    ghost respects_eq = { λ one other same. ap (fed.slice fed.u8) ((bytes_decides one other).0 same) };

    fn hash<H: Hasher>(&self, state: &mut H) {
        self.as_slice().hash(state);
    }
}

#[cfg(test)]
mod tests {
    use super::*;
    use std::test::Fail;

    #[test]
    fn grows_past_what_it_holds_itself(rt: HostRuntime) -> Result<(), Fail> {
        let mut bytes = Bytes::from_slice(rt.alloc(), b"capacity_of_the_north")?;
        bytes.push(b'_')?;
        assert_eq!(rt; bytes.as_slice(), b"capacity_of_the_north_".as_slice());
        bytes.extend_from_slice(b"depot")?;
        bytes.push(b's')?;
        assert_eq!(rt;
            bytes.as_slice(),
            b"capacity_of_the_north_depots".as_slice()
        );
        assert_eq!(rt; bytes.copy()?, bytes);
        assert_eq!(rt; bytes.into_vec()?.len(), 28);
        Ok(())
    }
}
