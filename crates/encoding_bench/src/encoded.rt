//! Systems of binary columns and the rows of their conjunction.

use crate::conjunction::{PLACE, conjunction};
use std::alloc::Global;
use zim_cond::truth;
use zim_logic_rows::binary_column;
use zim_rows::{EncodeFault, RowFrom, System};

/// The statement and the place of all rows.
const FROM: RowFrom = RowFrom {
    statement: 0,
    place: PLACE,
};

/// So many binary columns, and the columns and rows of the conjunction that all are 1; of none nothing.
pub fn encoded_conjunction(alloc: Global, count: u32) -> Result<System, EncodeFault> {
    let mut system = System::new(alloc);
    for _ in 0..count {
        system.add_step(PLACE, &[binary_column()], &[])?;
    }
    let columns = system.column_count() as u32;
    if columns != 0 {
        let all = conjunction(alloc, columns)?;
        truth(alloc, &mut system, FROM, &all)?;
    }
    Ok(system)
}
