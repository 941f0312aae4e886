//! Reading the whole of an input and writing the whole of an output, for the programs.
#![tactic(auto)]

mod error;
mod input;
mod output;

pub use error::StreamError;
pub use input::read_whole;
pub use output::write_whole;
