//! What a file of a linear program says, whatever its format: its columns by name, its rows, its objective, and
//! the points that it allows.
//!
//! The crate has definitions and laws and no code. `specs/Instance.antt` defines an instance, its points and the
//! objective at a point; `specs/System.antt` defines a list of columns with names and rows over them, and when
//! an instance says such a system; `specs/Seen.antt` writes an instance out, for examples. The laws of `proofs/Points.antt` lead from the points of an instance to
//! the lists of numbers that solve the system that it says, and back: each such list comes from exactly one point.
#![tactic(auto)]
