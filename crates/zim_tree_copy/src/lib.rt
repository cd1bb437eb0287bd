//! Equal trees: a copy of each kind of syntax tree.
#![tactic(auto)]

mod exprs;
mod stmts;

pub use exprs::{copy_angle, copy_body, copy_expr, copy_index};
pub use stmts::{
    copy_bracket, copy_doing, copy_limit, copy_par_side, copy_printed, copy_reading, copy_set_side,
    copy_shape, copy_stmt, copy_table,
};
