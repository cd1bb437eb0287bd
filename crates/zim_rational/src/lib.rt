//! Exact fractions as contracts see them. The crate holds no code: it is what the crates above cite.
//!
//! `specs/Rational` says what a fraction is (a numerator over a denominator in lowest terms, so that
//! equal numbers are one value), its sum, product, quotient and order, and the sum of a list;
//! `specs/Rounding` has whole numbers near a fraction and powers, `specs/Gcd` divisors and multiples.
//!
//! The laws stand in `proofs/`, none with a premise that a number is valid: `Ring`, `Order`, `Sums`,
//! `Whole` (whole numbers and division), `Rounding`, `Powers`, `Compare`, `Multiples`, `Parts` (the
//! lowest terms of results) and `Rows` (what the rows of an encoding say). `Fraction` gives up to six
//! fractions a common denominator, after which `simp fractions` makes any linear fact one about plain
//! numbers, for `omega`.
#![tactic(auto)]
