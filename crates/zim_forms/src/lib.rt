//! Forms by operators: the words that encodings are said in.
//!
//! In contracts a sum of forms is `a ⊕ b` whatever the limit, and `form_sum` is what it answers under the limit of a
//! `Fraction`, past or the form; `Exact` is a single number that is computed under it. `sum`, `difference`, `multiple`
//! and `ends` are the calls of `zim_linear`, with these words in their clauses.
#![tactic(auto)]

mod forms;
mod numbers;

pub use forms::{add_to, difference, ends, multiple, sum, with_column};
pub use numbers::{exact_difference, exact_quotient, exact_sum};
