//! The case mode.

/// Whether a search tells the two cases of a letter apart: in `Exact` a letter matches itself alone, in `Either` in either case.
#[derive(Clone, Copy)]
pub enum CaseMode {
    Exact,
    Either,
}
