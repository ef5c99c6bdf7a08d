//! Where a listing breaks its lines.
ghost use Rattle.std.specs.Prelude.{◌≡◌, ◌<◌, ◌≤◌, length, IfSome, IsTrue};

use teco_core::{ESC, Profile};
use teco_scan::{
    Bare, BlockMark, Found, Item, Kind, LevelCommand, RegisterCommand, TokenKind, skip_whole_block,
    token_at,
};

/// What a token is for a layout.
#[derive(Clone, Copy)]
pub enum TokenRole {
    Opens(Kind),
    Divides,
    Closes,
    /// It is a command, after which a line may end.
    Command,
    /// It gives or builds a number for a command.
    Value,
}

fn item_role(item: Item, has_number: bool) -> TokenRole {
    match item {
        Item::Bare(Bare::Command(_)) => TokenRole::Command,
        Item::Bare(Bare::Level(LevelCommand::Append)) if !has_number => TokenRole::Command,
        Item::Bare(Bare::Level(LevelCommand::Decimal)) if has_number => TokenRole::Command,
        Item::Register(RegisterCommand::Number | RegisterCommand::Increment, _) => TokenRole::Value,
        Item::Register(..) => TokenRole::Command,
        Item::Text(..) => TokenRole::Command,
        Item::SetText(..) => TokenRole::Command,
        Item::Replace(..) => TokenRole::Command,
        _ => TokenRole::Value,
    }
}

/// What a token is, after a number or none.
pub fn role_of(kind: TokenKind, has_number: bool) -> TokenRole {
    match kind {
        TokenKind::Mark(BlockMark::Iterate) => TokenRole::Opens(Kind::Iter),
        TokenKind::Test(_) => TokenRole::Opens(Kind::Then),
        TokenKind::Mark(BlockMark::Otherwise) => TokenRole::Divides,
        TokenKind::Mark(_) => TokenRole::Closes,
        TokenKind::Item(item) => item_role(item, has_number),
        TokenKind::Tag(_) => TokenRole::Command,
        TokenKind::Escape => TokenRole::Value,
    }
}

fn is_at(text: &[u8], at: usize, byte: u8) -> bool
    ensures { IsTrue result → at < length text.now }
{
    at < text.len() && text[at] == byte
}

/// Whether a line may be broken at a place: not beside a blank, which would need a mark of its own, nor before an ESC.
fn may_break(text: &[u8], at: usize) -> bool {
    let before = at > 0 && is_at(text, at - 1, b' ');
    !before && !is_at(text, at, b' ') && !is_at(text, at, ESC)
}

/// Where a line may end from a place on: after a line end that is there, or at the place.
fn break_at(text: &[u8], at: usize) -> Option<usize>
    requires { at ≤ length text.now }
    ensures { IfSome result (λ to. (at ≤ to) × (to ≤ length text.now)) }
{
    if is_at(text, at, b'\n') {
        return Some(at + 1);
    }
    if may_break(text, at) { Some(at) } else { None }
}

/// The place after the first line end from one place up to another, else the second place.
fn line_end(text: &[u8], at: usize, to: usize) -> usize
    requires { (at < to) × (to ≤ length text.now) }
    ensures { (at < result) × (result ≤ to) }
{
    let mut end = at;
    while end < to {
        end += 1;
        if text[end - 1] == b'\n' {
            return end;
        }
    }
    to
}

/// The place after a whole block whose opening ends at a place, if all of it is before another place.
fn short_block(profile: Profile, text: &[u8], at: usize, kind: Kind, limit: usize) -> Option<usize>
    ensures { IfSome result (λ to. (at ≤ to) × (to ≤ length text.now)) }
{
    if at > limit || limit > text.len() {
        return None;
    }
    match skip_whole_block(profile, &text[..limit], at, kind, 1) {
        Ok(to) => Some(to),
        Err(_) => None,
    }
}

/// A line of a listing.
#[derive(Clone, Copy)]
pub struct ListingLine {
    /// How far it is in.
    pub margin: usize,
    /// Where it ends.
    pub to: usize,
    /// Up to where its note tells what the commands do. A line that begins within a command tells nothing.
    pub told: usize,
}

/// A layout goes over a text from its beginning.
#[derive(Clone, Copy)]
pub struct Layout {
    profile: Profile,
    /// How long a line may become before it is broken.
    width: usize,
    /// How many blocks are open.
    depth: usize,
    /// Where the commands end that were taken together last.
    stop: usize,
}

/// The most blocks whose lines are further in than the lines around them.
const DEEPEST: usize = 20;

impl Layout {
    pub fn new(profile: Profile, width: usize) -> Self {
        Self {
            profile,
            width,
            depth: 0,
            stop: 0,
        }
    }

    /// How far a line is in that begins with the token at a place.
    fn margin(&self, text: &[u8], at: usize) -> usize
        requires { at ≤ length text.now }
    {
        let depth = match token_at(self.profile, text, at) {
            Found::Token(token) => match role_of(token.kind, false) {
                TokenRole::Closes | TokenRole::Divides => self.depth.saturating_sub(1),
                _ => self.depth,
            },
            _ => self.depth,
        };
        depth.min(DEEPEST) * 2
    }

    /// Whether a line that began at one place ends after a token that ends at another; and the place after the whole block, if the
    /// token opens a short one.
    fn after_token(&mut self, text: &[u8], at: usize, role: TokenRole, to: usize) -> (usize, bool)
        requires { (at ≤ to) × (to ≤ length text.now) }
        ensures { (to ≤ result.0) × (result.0 ≤ length text.now) }
    {
        match role {
            TokenRole::Opens(kind) => {
                let limit = text.len().min(at.saturating_add(self.width));
                if let Some(end) = short_block(self.profile, text, to, kind, limit) {
                    return (end, is_at(text, end, b'\n'));
                }
                self.depth = self.depth.saturating_add(1);
                (to, true)
            }
            TokenRole::Divides => (to, true),
            TokenRole::Closes => {
                self.depth = self.depth.saturating_sub(1);
                (to, true)
            }
            TokenRole::Command => (to, to - at > self.width || is_at(text, to, b'\n')),
            TokenRole::Value => (to, false),
        }
    }

    /// The place after the commands that are taken together from a place on.
    fn group_end(&mut self, text: &[u8], at: usize) -> usize
        requires { at < length text.now }
        ensures { (at < result) × (result ≤ length text.now) }
    {
        let mut to = at;
        let mut has_number = false;
        while to < text.len() {
            let Found::Token(token) = token_at(self.profile, text, to) else {
                return text.len();
            };
            let role = role_of(token.kind, has_number);
            if to > at
                && matches!(role, TokenRole::Divides | TokenRole::Closes)
                && may_break(text, to)
            {
                return to;
            }
            let (end, ends) = self.after_token(text, at, role, token.span.to);
            to = end;
            if ends && let Some(end) = break_at(text, to) {
                return end;
            }
            has_number = matches!(role, TokenRole::Value);
        }
        to
    }

    /// The next line.
    pub fn next_line(&mut self, text: &[u8], at: usize) -> ListingLine
        requires { at < length text.now }
        ensures { (at < result.to) × (result.to ≤ length text.now) }
    {
        let mut told = at;
        let mut margin = 0;
        if self.stop <= at || self.stop > text.len() {
            margin = self.margin(text, at);
            self.stop = self.group_end(text, at);
            told = self.stop;
        }
        ListingLine {
            margin,
            to: line_end(text, at, self.stop),
            told,
        }
    }
}
