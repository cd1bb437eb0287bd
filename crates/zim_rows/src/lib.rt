//! A linear program while it is built, and when it is finished: columns with their marks and sides, rows, ranges and an
//! objective, all by number and with exact fractions.
//!
//! `System` takes columns and rows one at a time, and `finish` turns it into a `Finished`: each row and the objective
//! are multiplied by the least factor that makes their numbers decimals, and the entries stand by column too.
//! `specs/Points` says which numbers solve a system and what its objective is at them, `specs/Factors` what the factors
//! are and when a number passes the limit, and `specs/Scaled` what finishing answers. `specs/Covered` says which sides
//! files have, `specs/Named` has the names of columns and rows in files, and `specs/Represents` says when what a file says is
//! a finished system. What is declared or encoded makes a step, columns and rows that `add_step` puts at the ends:
//! `specs/Steps` says when a step has room and how steps follow each other, and `specs/Extending` what they do to points.
#![tactic(auto)]

mod entries;
mod factors;
mod faults;
mod finished;
mod laws;
mod offset;
mod rows;
mod scaled;
mod steps;
mod system;
#[cfg(test)]
mod tests;

pub use faults::{EncodeFault, FinishFault, RowFault};
pub use finished::Finished;
pub use laws::{
    covered_systems_stay_covered, factors_are_least, later_points_begin_with_earlier_ones,
    points_go_on_by_what_fits, steps_follow_each_other, steps_that_fit_once_narrow,
};
pub use rows::{Column, GivenRow, Objective, Row, RowFrom, RowKind, Sense, Target};
pub use steps::NewRow;
pub use system::System;
