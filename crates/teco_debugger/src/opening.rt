//! What a session begins with.
ghost use Rattle.std.specs.Prelude.{◌≡◌, ◌≤◌, IfOk, None, vec_len};
ghost use Rattle.teco_core.specs.declared.limits.TheConstants.{FILE_LIMIT};
ghost use Rattle.teco_replay.specs.Begun.{begun_history};
ghost use Rattle.teco_session.specs.Kept.{history_of};

use teco_core::{NoMemory, Profile};
use teco_replay::begun_session;
use teco_session::Session;

/// What a session begins with.
#[derive(Drop)]
pub struct Opening {
    /// The language of its strings.
    pub profile: Profile,
    /// How many lines a page has; with 0 the pages are those of the input.
    pub lines: usize,
    pub input: Vec<u8>,
}

impl Opening {
    /// The same, of memory of its own.
    pub fn copy(&self) -> Result<Opening, NoMemory>
        ensures profile { IfOk result (λ other. other.profile ≡ self.now.profile) }
        ensures lines { IfOk result (λ other. other.lines ≡ self.now.lines) }
        ensures input { IfOk result (λ other. other.input.items ≡ self.now.input.items) }
    {
        let alloc = *self.input.allocator();
        Ok(Opening {
            profile: self.profile,
            lines: self.lines,
            input: Vec::from_slice(alloc, self.input.as_slice())?,
        })
    }

    /// A session that begins so, and keeps every string.
    pub fn session(self) -> Result<Session, NoMemory>
        requires { vec_len self.input ≤ FILE_LIMIT }
        ensures { IfOk result (λ session. history_of session ≡ begun_history self.profile self.lines None self.input.items) }
    {
        begun_session(self.profile, self.input, self.lines, None)
    }
}
