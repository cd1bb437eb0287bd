//! Equal typed trees: a copy of each kind of typed tree.
#![tactic(auto)]

mod constants;
mod constraints;
mod statements;

pub use constants::{copy_angle, copy_body, copy_const, copy_loop, copy_slot};
pub use constraints::{copy_con, copy_cond, copy_term};
pub use statements::{
    copy_bracket, copy_doing, copy_limit, copy_par_side, copy_printed, copy_reading, copy_set_side,
    copy_shape, copy_stmt, copy_table,
};
