//! The calls that read a token of a text.
ghost use Rattle.teco_core.specs.declared.profile.Profile.TheVariants.{Named, Wide};
ghost use Rattle.std.specs.Prelude.{◌≡◌, ◌≤◌, drop, length};
ghost use Rattle.teco_scan.specs.Scan.{after_fillers, scan};
ghost use Rattle.teco_ffi.specs.Tokens.{after_token, last_text, token_answer, token_kind};

use teco_core::Profile;
use teco_ffi::tokens::{ToldToken, tell_token};

/// Tells what stands at a place of a text after fillers: the two ends of a token, the number of its kind, and how many bytes its last text
/// has. Past the end of the text there is nothing. Takes no memory.
///
/// 0, or a number of its own where no token is left, or the number of the code by which none is read: UTC, ILL, IQN or IQC.
#[unsafe(no_mangle)]
pub extern "C" fn teco_token(text: &[u8], at: usize, told: &mut ToldToken) -> u8
    ensures answer { result ≡ token_answer (scan Named (drop at text.now)) }
    ensures from { drop told.new.from text.now ≡ after_fillers (drop at text.now) }
    ensures to { drop told.new.to text.now ≡ after_token (scan Named (drop at text.now)) }
    ensures kind { told.new.kind ≡ token_kind (scan Named (drop at text.now)) }
    ensures size { told.new.size ≡ length (last_text (scan Named (drop at text.now))) }
    ensures within { (told.new.from ≤ told.new.to) × (told.new.to ≤ length text.now) }
{
    tell_token(Profile::Named, text, at, told)
}

/// Tells what stands at a place of a text as `teco_token` does, where the text is read in the wide language.
#[unsafe(no_mangle)]
pub extern "C" fn teco_token_wide(text: &[u8], at: usize, told: &mut ToldToken) -> u8
    ensures answer { result ≡ token_answer (scan Wide (drop at text.now)) }
    ensures from { drop told.new.from text.now ≡ after_fillers (drop at text.now) }
    ensures to { drop told.new.to text.now ≡ after_token (scan Wide (drop at text.now)) }
    ensures kind { told.new.kind ≡ token_kind (scan Wide (drop at text.now)) }
    ensures size { told.new.size ≡ length (last_text (scan Wide (drop at text.now))) }
    ensures within { (told.new.from ≤ told.new.to) × (told.new.to ≤ length text.now) }
{
    tell_token(Profile::Wide, text, at, told)
}
