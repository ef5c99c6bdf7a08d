//! The profile of the language.

/// What a text is read by: which commands there are, which modifiers each admits, and which bytes name a test.
#[derive(Clone, Copy, Debug, PartialEq, Eq)]
pub enum Profile {
    /// The named profile of TECO-11, which is meant where nothing else is said.
    Named,
    /// The wider language of old macros: what Named has, and more spellings.
    Wide,
}
