//! The text that a search leaves.
ghost use Rattle.std.specs.Prelude.{◌↔◌, ◌<◌, IsTrue};
ghost use Rattle.std.specs.Option.{option_copied};
ghost use Rattle.teco_store.specs.Search.{length_of};

use teco_core::TEXT_LIMIT;

/// Whether a text is past its limit.
pub fn is_long(text: Option<&[u8]>) -> bool
    ensures { IsTrue result ↔ (TEXT_LIMIT < length_of (option_copied text.entry)) }
{
    match text {
        None => false,
        Some(text) => text.len() > TEXT_LIMIT,
    }
}
