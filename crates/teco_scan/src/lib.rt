//! The spelling of tokens, the table of commands, the blocks and tags that the tokens of a text make, and the texts of a stream.
#![tactic(auto)]

mod blocks;
mod breaks;
mod command;
mod gathering;
mod leads;
mod names;
mod operand;
mod scan;
mod stream;
mod table;
mod text;
mod token;

pub use blocks::{
    Kind, SkipEnd, block_laws, closing_mark, find_tag, nesting, skip_block, skip_whole_block,
};
pub use breaks::{ListFault, break_laws, first_fault};
pub use command::{
    Arithmetic, Bare, BlockMark, Command, Form, LevelCommand, Modifiers, Name, Quantity,
    RegisterCommand, Row, Test, TextCommand,
};
pub use gathering::Tags;
pub use leads::{
    bare_token, digits_token, end_found, escape_token, lead, mark_token, register_token,
    replace_token, tag_token, test_token, text_token,
};
pub use names::lone_form;
pub use scan::{filler_end, profile_laws, spelling, token_at};
pub use stream::{HistoryMove, asks_history, ends_in_escape, move_asked, pair_end};
pub use table::{ROWS, WIDE_ROWS};
pub use text::Text;
pub use token::{Found, Item, Span, Token, TokenKind};
