//! Numbers of the language: exact fractions n/d in lowest terms with |n| and d at most 2^127 - 1.
//! Each operation gives the exact result or `Past`, where the limit is passed; nothing is rounded.
//! In contracts a `Fraction` is the fraction of `zim_rational` that it stands for, so a clause
//! speaks of sums and products of unbounded numbers and says where the limit is passed.
#![tactic(auto)]

mod divisor;
mod equality;
mod fault;
mod fraction;
mod limit;
#[cfg(test)]
mod limit_cases;
mod order;
mod powers;
mod product;
mod rounding;
mod sum;
#[cfg(test)]
mod tests;

pub use divisor::{gcd, lcm};
pub use fault::{NumFault, Past};
pub use fraction::Fraction;
pub use order::compare;
pub use powers::power;
pub use product::{div, mul, of};
pub use rounding::{ceil, floor, round};
pub use sum::{add, negated, sub};
