// What the fitting words say of a symbol, through elimination over the known positions of a codeword.
#![tactic(auto)]

mod grade;
mod lane;
mod reduced;

pub use grade::Grade;
pub use lane::Symbol;
pub use reduced::Reduced;
