//! The calls for the file of a session.
ghost use Rattle.std.specs.Prelude.{◌≡◌, ◌≢◌, ◌↔◌, ◌⊎◌, IfSome, None};
ghost use Rattle.teco_core.specs.Code.{number_of};
ghost use Rattle.teco_core.specs.declared.code.Code.TheVariants.{Mem};
ghost use Rattle.teco_core.specs.declared.profile.Profile.TheVariants.{Named, Wide};
ghost use Rattle.teco_journal.specs.Events.{event_of};
ghost use Rattle.teco_journal.specs.Heads.{first_check, whole_head};
ghost use Rattle.teco_journal.specs.Lines.{check_of, line_of, words_of};
ghost use Rattle.teco_ffi.specs.Lines.{IsNoLineTold, IsLineTold, KeepsLine, event_named, beginning_asked};
ghost use Rattle.teco_c.specs.Files.{IsOpenedAgain};

use crate::answers::OUTSIDE;
use crate::handle::Teco;
use std::alloc::Global;
use teco_core::Profile;
use teco_ffi::lines::{Line, tell_head, tell_record};
use teco_ffi::resuming::{Resumed, session_in};

/// Puts the head of the file of a session that is opened over this input, with pages of so many lines and with this depth, and its check.
///
/// 0, or the number of MEM where memory is refused. Where the room is too small, nothing is copied and the check stays.
#[unsafe(no_mangle)]
pub extern "C" fn teco_head(
    alloc: Global,
    input: &[u8],
    lines: usize,
    depth: usize,
    line: &mut Line,
) -> u8
    ensures told { let begun = beginning_asked Named lines depth input.now in
        result ≡ 0 → IsLineTold (whole_head begun) (first_check begun) line.old line.new }
    ensures refused { result ≢ 0 → IsNoLineTold line.old line.new }
    ensures else_memory { (result ≡ 0) ⊎ (result ≡ number_of Mem) }
    ensures kept { KeepsLine line.old line.new }
{
    tell_head(alloc, Profile::Named, input, lines, depth, line)
}

/// Puts the head as `teco_head` does, of a session whose strings are read in the wide language.
#[unsafe(no_mangle)]
pub extern "C" fn teco_head_wide(
    alloc: Global,
    input: &[u8],
    lines: usize,
    depth: usize,
    line: &mut Line,
) -> u8
    ensures told { let begun = beginning_asked Wide lines depth input.now in
        result ≡ 0 → IsLineTold (whole_head begun) (first_check begun) line.old line.new }
    ensures refused { result ≢ 0 → IsNoLineTold line.old line.new }
    ensures else_memory { (result ≡ 0) ⊎ (result ≡ number_of Mem) }
    ensures kept { KeepsLine line.old line.new }
{
    tell_head(alloc, Profile::Wide, input, lines, depth, line)
}

/// Puts the line of what a request did behind the last check, which then is its own. The text is that of the string that was run.
///
/// 0, or OUTSIDE where nothing has the number of the kind, or the number of MEM where memory is refused. Where the room is too small, nothing
/// is copied and the check stays.
#[unsafe(no_mangle)]
pub extern "C" fn teco_record(alloc: Global, text: &[u8], line: &mut Line) -> u8
    ensures told { result ≡ 0 → IfSome (event_named line.old.kind line.old.steps text.now) (λ event.
        IsLineTold (line_of line.old.check (words_of event)) (check_of line.old.check (words_of event)) line.old line.new) }
    ensures outside { (result ≡ OUTSIDE) ↔ (event_named line.old.kind line.old.steps text.now ≡ None) }
    ensures refused { result ≢ 0 → IsNoLineTold line.old line.new }
    ensures else_memory { (result ≡ 0) ⊎ (result ≡ OUTSIDE) ⊎ (result ≡ number_of Mem) }
    ensures kept { KeepsLine line.old line.new }
{
    tell_record(alloc, text, line)
}

/// Opens a handle: the session that a file of these bytes tells, up to where the reading of its lines ends. What was open in it is freed
/// then. Its strings are run again, each under a limit of just the steps that it took.
///
/// 0, or a number that says why not: then nothing changes.
#[unsafe(no_mangle)]
pub extern "C" fn teco_resume(alloc: Global, t: &mut Teco, bytes: &[u8], told: &mut Resumed) -> u8
    ensures resumed { result ≡ 0 → IsOpenedAgain bytes.now told.new t.new.value }
    ensures refused { result ≢ 0 → (t.new.value ≡ t.old.value) × (told.new ≡ told.old) }
{
    match session_in(alloc, bytes, told) {
        Ok(session) => {
            t.open(session);
            0
        }
        Err(number) => number,
    }
}
