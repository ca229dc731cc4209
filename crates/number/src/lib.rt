// Whole numbers from -2^53 to 2^53, and their arithmetic.
//
// Between functions and crates a number is a u64, its distance from the least number: `unbias` of `specs/` says which
// number a u64 stands for.
#![tactic(auto)]

mod arithmetic;
mod signed;

pub use arithmetic::{Stop, TOP, ZERO, add, divide, multiply, negate, remainder, subtract};
