//! The editing state, the desk on which it is changed, and changes of its parts.
#![tactic(auto)]

pub mod change;
mod change_kind;
mod desk;
mod editor;
mod exchange;
mod laws;
mod noting;
mod output;
mod pages;
mod parts;
mod short_text;
mod slices;

pub use change::Change;
pub use change_kind::ChangeKind;
pub use desk::{Desk, Refused};
pub use editor::Editor;
pub use laws::{change_laws, editor_laws, page_laws};
pub use noting::is_long;
pub use pages::{PageSpan, is_past, part};
pub use short_text::{SHORT_LIMIT, ShortText};
pub use slices::Slices;
