//! The command line of the program `paseto`, as clap parses it: what each command takes, and what
//! the arguments request, in plain structs of texts.
#![tactic(auto)]

mod action;
mod app;
mod command_line;
mod reading;

pub use action::{
    Action, Check, Explain, Foot, Inspect, Issue, KeyFile, Keyed, Keygen, Keys, Openers, Seal,
    Under, Wrap, Written,
};
pub use app::paseto;
pub use command_line::{parse, status};
