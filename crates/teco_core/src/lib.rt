//! What every part of the editor speaks of: codes, numbers, arguments, registers, the push-down list and the profile of the language.
#![tactic(auto)]

mod arguments;
mod ascii;
mod case_mode;
mod code;
mod laws;
mod limits;
mod number;
mod profile;
mod push_down;
mod register;

pub use arguments::{Args, Expression, Level, Sign, Taken};
pub use ascii::{ESC, is_filler, is_line_end};
pub use case_mode::CaseMode;
pub use code::Code;
pub use laws::{argument_laws, digit_laws};
pub use limits::{
    BLOCK_LIMIT, CALL_LIMIT, DEPTH_LIMIT, FILE_LIMIT, PARENTHESIS_LIMIT, PUSHED_LIMIT, TEXT_LIMIT,
    limit_values,
};
pub use number::{Op, decimal, operation};
pub use profile::Profile;
pub use push_down::PushList;
pub use register::{Reg, Registers, Value};
pub use std::alloc::AllocError as NoMemory;
