//! What the command line says.

use teco_core::Profile;

/// What a run makes of its input.
#[derive(Clone, Copy)]
pub enum TecolMode {
    /// The bytes that a source stands for.
    Bytes,
    /// A listing of bytes.
    Listing,
    /// A listing of what a source stands for.
    Again,
    /// What a check tells of a source.
    CheckSource,
    /// What a check tells of bytes.
    CheckBytes,
    /// A diff of a source, to other spellings of its synonyms.
    FixSource,
    /// A diff of bytes.
    FixBytes,
}

/// What the command line says.
#[derive(Drop)]
pub struct TecolLine {
    /// The name of the input; `-` is standard input.
    pub input: String,
    /// The name of the output; `-` is standard output.
    pub output: String,
    pub mode: TecolMode,
    /// The language of the commands.
    pub profile: Profile,
    /// Whether a listing has words.
    pub words: bool,
}
