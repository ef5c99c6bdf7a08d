//! Hints: what may be meant otherwise.
ghost use Rattle.std.specs.Prelude.{Bool, OnOk};
ghost use Rattle.teco_lint.specs.Told.{IsTold};

use crate::forms::{Before, form_of};
use crate::passing::part;
use crate::remarks::{Hint, Remark, What};
use std::alloc::Global;
use teco_check::REGISTERS;
use teco_core::{CaseMode, Code, NoMemory, Profile, Reg};
use teco_messages::letter;
use teco_scan::{
    Bare, BlockMark, Command, Found, Item, LevelCommand, RegisterCommand, Span, TextCommand, Token,
    TokenKind, filler_end, token_at,
};
use teco_search::Pattern;

/// What has been seen of the commands.
#[derive(Clone, Copy)]
pub(crate) struct Hinting {
    /// The language of the commands.
    profile: Profile,
    /// How many iterations are open.
    iterations: usize,
    /// Whether `EX` is the command before in its list, and no jump can have gone past it.
    after_exit: bool,
    /// Whether the string has a jump, which may go to any of its tags.
    has_jump: bool,
    /// Whether a number comes before.
    has_number: bool,
    /// What is spelled before, as far as it is numbers alone.
    before: Before,
    has_exit: bool,
    has_page: bool,
    /// Whether the last pair of ESC has come.
    pub(crate) in_rest: bool,
    /// The registers that were told of.
    told: [bool; REGISTERS],
}

impl Hinting {
    pub(crate) fn new(profile: Profile) -> Self {
        Self {
            profile,
            iterations: 0,
            after_exit: false,
            has_jump: false,
            has_number: false,
            before: Before::Nothing,
            has_exit: false,
            has_page: false,
            in_rest: false,
            told: [false; REGISTERS],
        }
    }

    /// A command string begins.
    fn begin(&mut self, text: &[u8]) {
        self.iterations = 0;
        self.after_exit = false;
        self.has_jump = has_jump(self.profile, text);
        self.has_number = false;
        self.before = Before::Nothing;
    }

    fn of_command(&mut self, command: Command) -> Option<Hint> {
        match command {
            Command::Exit => {
                self.has_exit = true;
                self.after_exit = true;
            }
            Command::NextPage | Command::TurnPages => self.has_page = true,
            Command::Leave if self.iterations == 0 => return Some(Hint::LeavesNothing),
            _ => {}
        }
        None
    }

    fn of_text(&mut self, alloc: Global, command: TextCommand, text: &[u8]) -> Option<Hint> {
        match command {
            TextCommand::SearchPages | TextCommand::SearchPagesQuietly => self.has_page = true,
            TextCommand::Go if self.has_number => return Some(Hint::NumberBeforeJump),
            TextCommand::Search | TextCommand::FindAndDelete | TextCommand::FindAndKill => {}
            _ => return None,
        }
        of_search_text(alloc, text)
    }

    fn of_call(&mut self, register: Reg, given: &[bool; REGISTERS]) -> Option<Hint> {
        let index = register.index();
        if given[index] || self.told[index] {
            return None;
        }
        self.told[index] = true;
        Some(Hint::NeverSet(letter(register)))
    }

    fn of_item(&mut self, alloc: Global, text: &[u8], item: Item) -> Option<Hint> {
        match item {
            Item::Bare(Bare::Command(command)) => self.of_command(command),
            Item::Bare(Bare::Level(LevelCommand::Append)) if !self.has_number => {
                self.has_page = true;
                None
            }
            Item::Text(command, span) => self.of_text(alloc, command, part(text, span)),
            Item::Replace(span, _) => of_search_text(alloc, part(text, span)),
            _ => None,
        }
    }

    /// The hint at a token, if there is one.
    fn of_token(
        &mut self,
        alloc: Global,
        text: &[u8],
        token: &Token,
        given: &[bool; REGISTERS],
    ) -> Option<Hint> {
        let is_after = self.after_exit;
        let form = form_of(self.profile, token, self.before);
        match token.kind {
            TokenKind::Escape => return None,
            TokenKind::Tag(_) => {
                self.after_exit = is_after && !self.has_jump;
                return None;
            }
            TokenKind::Mark(BlockMark::Iterate) => self.iterations = self
                .iterations
                .saturating_add(1),
            TokenKind::Mark(BlockMark::EndIteration) => {
                self.iterations = self.iterations.saturating_sub(1);
                self.after_exit = false;
                return None;
            }
            TokenKind::Mark(_) => {
                self.after_exit = false;
                return None;
            }
            _ => {}
        }
        self.after_exit = false;
        let hint = match token.kind {
            TokenKind::Item(Item::Register(RegisterCommand::Macro, register)) => {
                self.of_call(register, given)
            }
            TokenKind::Item(item) => self.of_item(alloc, text, item),
            _ => None,
        };
        if is_after {
            return Some(Hint::AfterExit);
        }
        if let Some(form) = form {
            return Some(Hint::LeftOut(form));
        }
        if hint.is_none() && !self.in_rest && is_empty_at_end(text, token) {
            return Some(Hint::EmptyText);
        }
        hint
    }
}

/// Whether a text has a jump before its first fault.
fn has_jump(profile: Profile, text: &[u8]) -> bool {
    let mut at = 0;
    while at < text.len() {
        let Found::Token(token) = token_at(profile, text, at) else {
            return false;
        };
        if let TokenKind::Item(Item::Text(TextCommand::Go, _)) = token.kind {
            return true;
        }
        at = token.span.to;
    }
    false
}

/// Whether a token at the end of a text has an empty text. In a command string its ESC is the first of the pair.
fn is_empty_at_end(text: &[u8], token: &Token) -> bool {
    let span = match token.kind {
        TokenKind::Item(Item::Text(_, span)) => span,
        TokenKind::Item(Item::SetText(_, span)) => span,
        _ => return false,
    };
    span.from == span.to && token.span.to == text.len()
}

/// Whether a text has a caret before a letter, as one who means a control byte writes it.
fn has_caret(text: &[u8]) -> bool {
    let mut caret = false;
    for byte in text {
        if caret && byte.is_ascii_alphabetic() {
            return true;
        }
        caret = *byte == b'^';
    }
    false
}

/// The hint on a search text, if there is one.
fn of_search_text(alloc: Global, text: &[u8]) -> Option<Hint> {
    if is_wrong_search_text(alloc, text) {
        return Some(Hint::WrongSearchText);
    }
    has_caret(text).then_some(Hint::Caret)
}

/// Whether a text is one that a search can't read. The empty one stands for the text before it.
fn is_wrong_search_text(alloc: Global, text: &[u8]) -> bool {
    if text.is_empty() {
        return false;
    }
    matches!(Pattern::read(alloc, text, CaseMode::Exact), Err(Code::Ice))
}

/// Whether a token gives a number to the next one.
fn is_number(token: &Token) -> bool {
    match token.kind {
        TokenKind::Item(item) => matches!(
            item,
            Item::Digits(_)
                | Item::Byte(_)
                | Item::Bare(Bare::Quantity(_) | Bare::Arithmetic(_))
                | Item::Register(RegisterCommand::Number | RegisterCommand::Increment, _)
        ),
        _ => false,
    }
}

/// Puts a hint at the end.
fn push_hint(remarks: &mut Vec<Remark>, at: usize, hint: Hint) -> Result<(), NoMemory>
    ensures kept { (test : Remark → Bool) → IsTold test remarks.old.items → OnOk result (IsTold test remarks.new.items) }
{
    remarks.push(Remark {
        at,
        what: What::Hint(hint),
    })?;
    Ok(())
}

/// Puts the hints of a command string that begins at a place, up to its first fault. `given` says which registers are given a text.
pub(crate) fn push_hints(
    remarks: &mut Vec<Remark>,
    hinting: &mut Hinting,
    text: &[u8],
    from: usize,
    given: &[bool; REGISTERS],
) -> Result<(), NoMemory> {
    hinting.begin(text);
    let alloc = *remarks.allocator();
    let mut at = 0;
    while at < text.len() {
        let Found::Token(token) = token_at(hinting.profile, text, at) else {
            return Ok(());
        };
        at = token.span.to;
        if let Some(hint) = hinting.of_token(alloc, text, &token, given) {
            push_hint(remarks, from.saturating_add(token.span.from), hint)?;
        }
        hinting.has_number = is_number(&token);
        let before = hinting.before;
        hinting.before = before.and(&token);
    }
    Ok(())
}

/// Puts the hints on the whole at the end, that on its rest first. Past a fault nothing was looked for, and what no check looks into may
/// read a page or end the run. So what lacks is told of clean texts alone.
pub(crate) fn push_last_hints(
    remarks: &mut Vec<Remark>,
    hinting: &Hinting,
    commands: &[u8],
    rest: Option<Hint>,
    is_unclean: bool,
) -> Result<(), NoMemory>
    ensures kept { (test : Remark → Bool) → IsTold test remarks.old.items → OnOk result (IsTold test remarks.new.items) }
{
    let end = commands.len();
    if let Some(hint) = rest {
        push_hint(remarks, end, hint)?;
    }
    if is_unclean || filler_end(commands, 0) == end {
        return Ok(());
    }
    if !hinting.has_page {
        push_hint(remarks, end, Hint::NoPage)?;
    }
    if !hinting.has_exit {
        push_hint(remarks, end, Hint::NoExit)?;
    }
    Ok(())
}
