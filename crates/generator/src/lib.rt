// The generator matrix.
#![tactic(auto)]

mod matrix;

pub use matrix::generator;
