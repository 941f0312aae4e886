//! The commands of the program `paseto` on keys and texts, over any key, generator, input and
//! outputs: new keys and their ids, encryption, decryption, signing and verifying.
#![tactic(auto, unfolding(rusty_paseto_core::specs::Local::V1::v1, rusty_paseto_core::specs::Local::V3::v3, rusty_paseto_core::specs::Local::V4::v4))]

mod arguments;
mod error;
mod explain;
mod front;
mod half;
mod id;
mod input;
mod inspect;
pub mod keygen;
mod output;
mod rsa;
pub mod run;
mod shown;
mod spelling;
mod token_kind;
mod tokens;

pub use arguments::{Format, Kind, Options, Task};
pub use error::{FileError, Names, ProgramError, SystemError, TimeOption, TokenError, UsageError};
pub use input::{read_input, read_key_line, read_password, read_text, read_token};
pub use output::{with_line_feed, write_whole};
pub use token_kind::TokenKind;
pub use tokens::takes;
