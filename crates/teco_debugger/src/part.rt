//! Parts of the state.
use teco_core::Reg;

/// A part of the state that is asked for.
#[derive(Clone, Copy)]
pub enum Part {
    /// The text of the buffer.
    Buffer,
    Register(Reg),
}
