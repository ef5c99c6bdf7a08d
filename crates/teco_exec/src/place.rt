//! Where a run stands.
use teco_core::Reg;
use teco_scan::ListFault;

/// Where a run stands: before a step of a token, or at a fault of a text.
///
/// Places count the bytes before them, each in its own text. What a caller needs besides, he reads there himself: where the token
/// ends, by `token_at` of teco_scan; and the text of a register that is called, as long as nothing has changed it since the call.
pub struct Place {
    /// The steps that were done when it stood there.
    pub steps: u64,
    /// The bytes of the innermost text that come before the token.
    pub at: usize,
    /// The turns left after the present one of each iteration that is open there, the innermost first; none: without end.
    pub turns: Vec<Option<u32>>,
    /// The calls that are open, the latest first.
    pub calls: Vec<Call>,
    /// The first fault of the innermost text, if it has one. A run that ends by its code has met it: at the place, or in what the
    /// token there skips. A jump finds no tag after it.
    pub fault: Option<ListFault>,
}

// Its calls go here, and a crate that lets a place go calls this.
impl Drop for Place {
    fn drop(self) {
        let Place {
            steps: _,
            at: _,
            turns: _,
            calls: _,
            fault: _,
        } = self;
    }
}

/// A call that is open.
#[derive(Debug, Drop)]
pub struct Call {
    /// The register whose text is called.
    pub register: Reg,
    /// The bytes that come before the call in the text that calls.
    pub at: usize,
    /// The turns left after the present one of each iteration that is open in that text, the innermost first.
    pub turns: Vec<Option<u32>>,
}
