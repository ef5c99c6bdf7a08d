//! What the calls do to the session of a handle.
ghost use Rattle.std.specs.Prelude.{◌≡◌, ◌≤◌, length, IfOk};
ghost use Rattle.teco_ffi.specs.Calls.{Undoes, Redoes, Rewinds, begun_session, depth_asked};

use std::alloc::Global;
use teco_core::{Code, DEPTH_LIMIT, FILE_LIMIT, NoMemory, Profile};
use teco_session::Session;
use teco_store::Editor;

/// A session over a copy of the input, whose strings are read in this profile. Its pages end after so many lines too, or after any number
/// where that is 0. It keeps the last `depth` strings, or all of them where that is 0.
pub fn session_over(
    alloc: Global,
    profile: Profile,
    input: &[u8],
    lines: usize,
    depth: usize,
) -> Result<Box<Session>, NoMemory>
    requires input { length input.now ≤ FILE_LIMIT }
    requires depth { depth ≤ DEPTH_LIMIT }
    ensures { IfOk result (λ session. session.value ≡ begun_session profile lines (depth_asked depth) input.now) }
{
    let input = Vec::from_slice(alloc, input)?;
    let kept = if depth == 0 { None } else { Some(depth) };
    let editor = Editor::with_page_lines(input, lines).with_profile(profile);
    Ok(Box::new(alloc, Session::over(editor, kept)?)?)
}

/// Goes back by a string: 0, or the number of NTU where there is none. Takes no memory.
pub fn undo(session: &mut Session) -> u8
    ensures { Undoes session.old result session.new }
{
    match session.undo() {
        Ok(()) => 0,
        Err(_) => Code::Ntu.number(),
    }
}
