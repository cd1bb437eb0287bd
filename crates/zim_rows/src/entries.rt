ghost use Rattle.std.specs.Prelude.{◌≡◌, ℕ, ◌+◌, ◌-◌, ◌<◌, ◌≤◌, [], ◌∷◌, ◌++◌, length, All, IfOk, OnOk, slice_set, slice_index_or, vec_len};
ghost use Rattle.zim_rows.specs.Entries.{IsOver, IsOverRow, entries_of_row, entries_by_column};

use crate::rows::Row;
use std::alloc::Global;
use zim_fault::{Memory, Sequence};
use zim_linear::Term;

/// An empty list for each column.
fn empty_lists(alloc: Global, columns: usize) -> Result<Vec<Sequence<Term>>, Memory>
    ensures len { IfOk result (λ lists. vec_len lists ≡ columns) }
    ensures empty { IfOk result (λ lists. (j : ℕ) → slice_index_or lists.items j [] ≡ []) }
{
    let mut lists = Vec::with_capacity(alloc, columns)?;
    for _column in 0..columns {
        lists.push(Sequence::new(alloc))?;
    }
    Ok(lists)
}

/// Adds an entry at the end of the list of a column, counted from 1.
fn add_entry(lists: &mut Vec<Sequence<Term>>, column: u32, entry: Term) -> Result<(), Memory>
    requires from_one { 1 ≤ column }
    requires in_columns { column ≤ vec_len lists.old }
    ensures { OnOk result
        (lists.new.items
        ≡ slice_set lists.old.items (column - 1) (slice_index_or lists.old.items (column - 1) [] ++ entry ∷ [])) }
{
    let list = &mut lists[(column - 1) as usize];
    list.push(entry)
}

/// Adds the terms of a row of that number at the ends of the lists of their columns.
fn add_row_entries(
    lists: &mut Vec<Sequence<Term>>,
    number: u32,
    terms: &[Term],
) -> Result<(), Memory>
    requires { All (IsOver (vec_len lists.old)) terms.now }
    ensures len { OnOk result (vec_len lists.new ≡ vec_len lists.old) }
    ensures added { OnOk result
        ((j : ℕ) → j < vec_len lists.old
        → slice_index_or lists.new.items j []
        ≡ slice_index_or lists.old.items j [] ++ entries_of_row number terms.now (j + 1)) }
{
    for term in terms {
        add_entry(lists, term.0, (number, term.1))?;
    }
    Ok(())
}

/// The entries of rows by column, in time proportional to their number and that of the columns and rows.
pub(crate) fn list_entries(
    alloc: Global,
    columns: usize,
    rows: &[Row],
) -> Result<Sequence<Sequence<Term>>, Memory>
    requires rows { All (IsOverRow columns) rows.now }
    requires few { length rows.now ≤ 1000000 }
    ensures { IfOk result (λ lists. lists ≡ entries_by_column columns rows.now) }
{
    let mut lists = empty_lists(alloc, columns)?;
    for (i, row) in rows.iter().enumerate() {
        add_row_entries(&mut lists, i as u32 + 1, row.terms.as_slice())?;
    }
    Ok(Sequence::from_vec(lists))
}
