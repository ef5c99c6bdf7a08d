//! Tokens, with their places in the text. A place is before, between or after bytes, and counts the bytes before it.
use crate::command::{Bare, BlockMark, Modifiers, RegisterCommand, Test, TextCommand};
use teco_core::{Code, Reg};

/// The bytes of a text from one place up to another.
#[derive(Clone, Copy)]
pub struct Span {
    pub from: usize,
    pub to: usize,
}

/// What is a step of its own, with its operands. A text's span leaves its delimiters out.
#[derive(Clone, Copy)]
pub enum Item {
    /// A run of decimal digits.
    Digits(Span),
    Bare(Bare),
    Register(RegisterCommand, Reg),
    /// `^^` and a byte.
    Byte(u8),
    Text(TextCommand, Span),
    /// `^U`, a register and its new text.
    SetText(Reg, Span),
    /// `FS`, the text to be found and the one to replace it.
    Replace(Span, Span),
}

/// What a token instructs.
#[derive(Clone, Copy)]
pub enum TokenKind {
    Item(Item),
    Mark(BlockMark),
    /// `"` and the letter of a test.
    Test(Test),
    /// The name between two `!`.
    Tag(Span),
    Escape,
}

/// A token, from its first byte up to the place after its last.
#[derive(Clone, Copy)]
pub struct Token {
    pub span: Span,
    pub modifiers: Modifiers,
    pub kind: TokenKind,
}

/// What is at a place, after fillers.
#[derive(Clone, Copy)]
pub enum Found {
    Token(Token),
    /// The end of the text.
    End,
    /// No token: ILL, IQN, IQC or UTC.
    Fault(Code),
}
