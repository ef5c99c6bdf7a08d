//! Forms of commands that are left out, though the commands are here. They are told by the numbers that are spelled before a command.

use teco_core::Profile;
use teco_scan::{Arithmetic, Bare, Command, Item, RegisterCommand, TextCommand, Token, TokenKind};

/// What is spelled before a command, if that is numbers alone.
#[derive(Clone, Copy)]
pub(crate) enum Before {
    Nothing,
    Number,
    NumberAndComma,
    Pair,
    /// Something else, so that it isn't known what comes to the command.
    Unknown,
}

/// A form of a command that a profile leaves out: a run that comes to it ends by ARG. The first three are left out of Named alone.
#[derive(Clone, Copy)]
pub enum Form {
    /// `nQq`
    NumberAndRegister,
    /// `m,nUq`
    PairAndRegister,
    /// `n^Uqtext$`
    NumberedText,
    /// `^T` without a number
    TypeByteAlone,
    /// `nV`
    NumberedView,
    /// `nPW`
    NumberedWrite,
    /// `m,nStext$`
    BoundedSearch,
    /// `^X` without a number
    CaseModeAlone,
}

impl Before {
    /// After a number of its own.
    fn and_number(self) -> Before {
        match self {
            Before::Nothing => Before::Number,
            Before::NumberAndComma => Before::Pair,
            _ => Before::Unknown,
        }
    }

    /// After `U`, which gives a number after a pair.
    fn and_set(self) -> Before {
        match self {
            Before::Pair => Before::Unknown,
            _ => Before::Nothing,
        }
    }

    fn and_bare(self, bare: Bare, colons: u8) -> Before {
        match (bare, self) {
            (Bare::Quantity(_), _) => self.and_number(),
            (Bare::Arithmetic(Arithmetic::Whole), Before::Nothing) => Before::Pair,
            (Bare::Arithmetic(Arithmetic::Comma), Before::Number) => Before::NumberAndComma,
            (Bare::Command(_), _) if colons == 0 => Before::Nothing,
            _ => Before::Unknown,
        }
    }

    fn and_item(self, item: Item, colons: u8) -> Before {
        match item {
            Item::Digits(_) | Item::Byte(_) => self.and_number(),
            Item::Register(RegisterCommand::Number, _) => self.and_number(),
            Item::Register(RegisterCommand::Set, _) => self.and_set(),
            Item::Register(RegisterCommand::Get, _) => Before::Nothing,
            Item::Register(RegisterCommand::Extract, _) => Before::Nothing,
            Item::Bare(bare) => self.and_bare(bare, colons),
            Item::Text(TextCommand::Go, _) => Before::Unknown,
            Item::Text(..) | Item::SetText(..) | Item::Replace(..) if colons == 0 => {
                Before::Nothing
            }
            _ => Before::Unknown,
        }
    }

    /// The same after a token.
    pub(crate) fn and(self, token: &Token) -> Before {
        match token.kind {
            TokenKind::Escape => Before::Nothing,
            TokenKind::Item(item) => self.and_item(item, token.modifiers.colons),
            _ => Before::Unknown,
        }
    }
}

/// The form of a bare command, if it is left out.
fn form_of_command(command: Command, before: Before) -> Option<Form> {
    match (command, before) {
        (Command::TypeByte, Before::Nothing) => Some(Form::TypeByteAlone),
        (Command::CaseMode, Before::Nothing) => Some(Form::CaseModeAlone),
        (Command::View, Before::Number | Before::Pair) => Some(Form::NumberedView),
        (Command::WritePage, Before::Number) => Some(Form::NumberedWrite),
        _ => None,
    }
}

/// A form that Named alone leaves out, if the profile is that.
fn in_named(profile: Profile, form: Form) -> Option<Form> {
    match profile {
        Profile::Named => Some(form),
        Profile::Wide => None,
    }
}

/// The form of an item with this before it, if the profile leaves it out.
fn form_of_item(profile: Profile, item: Item, before: Before) -> Option<Form> {
    match (item, before) {
        (Item::Bare(Bare::Command(command)), _) => form_of_command(command, before),
        (Item::Register(RegisterCommand::Number, _), Before::Number | Before::Pair) => {
            in_named(profile, Form::NumberAndRegister)
        }
        (Item::Register(RegisterCommand::Set, _), Before::Pair) => {
            in_named(profile, Form::PairAndRegister)
        }
        (Item::SetText(..), Before::Number) => in_named(profile, Form::NumberedText),
        (Item::Text(TextCommand::Search, _), Before::Pair) => Some(Form::BoundedSearch),
        _ => None,
    }
}

/// The form of a token with this before it, if the profile leaves it out.
pub(crate) fn form_of(profile: Profile, token: &Token, before: Before) -> Option<Form> {
    match token.kind {
        TokenKind::Item(item) => form_of_item(profile, item, before),
        _ => None,
    }
}
