//! A session at its beginning, in a profile.
ghost use Rattle.std.specs.Prelude.{◌≡◌, ◌≤◌, vec_len, IfOk, IsOk, None};
ghost use Rattle.std.specs.Option.{ForSome};
ghost use Rattle.teco_core.specs.declared.limits.TheConstants.{DEPTH_LIMIT, FILE_LIMIT};
ghost use Rattle.teco_session.specs.Kept.{history_of};
ghost use Rattle.teco_replay.specs.Begun.{begun_history};

use teco_core::{NoMemory, Profile};
use teco_session::Session;
use teco_store::Editor;

/// A new session over this input, whose strings are read in this profile. Of its pages and its depth see [`Session::with_pages`].
pub fn begun_session(
    profile: Profile,
    input: Vec<u8>,
    lines: usize,
    depth: Option<usize>,
) -> Result<Session, NoMemory>
    requires input { vec_len input ≤ FILE_LIMIT }
    requires depth { ForSome depth (λ depth. depth ≤ DEPTH_LIMIT) }
    ensures history { IfOk result (λ session. history_of session ≡ begun_history profile lines depth input.items) }
    ensures every { depth ≡ None → IsOk result }
{
    let editor = Editor::with_page_lines(input, lines).with_profile(profile);
    Session::over(editor, depth)
}
