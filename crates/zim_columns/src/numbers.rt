// The numbers of the declared columns, found by the hash of their names and tuples.
ghost use Rattle.std.specs.Prelude.{◌≡◌, OnOk, OnErr};
ghost use Rattle.zim_columns.specs.Numbers.{table_number, HasNoNumber, AssignsNumber, AssignsIndexedNumber, KeepsNumbers, KeepsIndexedNumbers};

use indexmap::IndexMap;
use std::alloc::Global;
use zim_fault::{Bytes, Duplicate, Memory};
use zim_tuples::Tuple;

// The numbers of columns: by name where the column has no index, else by name and then by index. A map of indices takes no
// memory for the many columns that have none.
#[derive(Drop)]
pub(crate) struct NumberTable {
    single: IndexMap<Bytes, u32>,
    indexed: IndexMap<Bytes, IndexMap<Tuple, u32>>,
}

impl NumberTable {
    // No numbers. It takes no memory yet.
    pub(crate) fn new(alloc: Global) -> NumberTable
        ensures { HasNoNumber result }
    {
        NumberTable {
            single: IndexMap::new(alloc),
            indexed: IndexMap::new(alloc),
        }
    }

    // The number under a name and a tuple.
    pub(crate) fn get(&self, name: &Bytes, tuple: &Tuple) -> Option<u32>
        ensures { result ≡ table_number self.now name.now tuple.now }
    {
        if tuple.is_empty() {
            return self.single.get(name).copied();
        }
        match self.indexed.get(name) {
            Some(numbers) => numbers.get(tuple).copied(),
            None => None,
        }
    }

    // Puts a number under a name and a tuple. After `Memory` the numbers are as before.
    pub(crate) fn insert(
        &mut self,
        alloc: Global,
        name: &Bytes,
        tuple: &Tuple,
        number: u32,
    ) -> Result<(), Memory>
        ensures ok { OnOk result (AssignsNumber self.old self.new name.now tuple.now number) }
        ensures err { OnErr result (KeepsNumbers self.old self.new) }
    {
        if tuple.is_empty() {
            self.single.insert(name.copy()?, number)?;
            return Ok(());
        }
        insert_indexed(alloc, &mut self.indexed, name, tuple, number)
    }
}

// The same for a tuple that isn't empty.
fn insert_indexed(
    alloc: Global,
    indexed: &mut IndexMap<Bytes, IndexMap<Tuple, u32>>,
    name: &Bytes,
    tuple: &Tuple,
    number: u32,
) -> Result<(), Memory>
    ensures ok { OnOk result (AssignsIndexedNumber indexed.old indexed.new name.now tuple.now number) }
    ensures err { OnErr result (KeepsIndexedNumbers indexed.old indexed.new) }
{
    let at = tuple.copy()?;
    match indexed.get_mut(name) {
        Some(numbers) => {
            numbers.insert(at, number)?;
        }
        None => {
            let mut numbers = IndexMap::new(alloc);
            numbers.insert(at, number)?;
            indexed.insert(name.copy()?, numbers)?;
        }
    }
    Ok(())
}
