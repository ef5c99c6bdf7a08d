//! The first fault of a text.
ghost use Rattle.std.specs.Prelude.{slice_index, ◌≡◌, ◌≢◌, ◌+◌, ◌-◌, ◌<◌, ◌≤◌, ◌&&◌, ℕ, suc, true, false, Bool, List, [], ◌∷◌, length, drop, IfOk, IfErr, IfSome, Option, Some, None, is_ok, is_some, is_none};
ghost use Rattle.teco_core.specs.declared.code.Code.{Code};
ghost use Rattle.teco_core.specs.declared.limits.TheConstants.{BLOCK_LIMIT};
ghost use Rattle.teco_scan.specs.Scan.{ended, found, scan, step};
ghost use Rattle.teco_scan.specs.Skip.{closing_mark};
ghost use Rattle.teco_scan.specs.Tree.{Nodes};
ghost use Rattle.teco_scan.specs.Seen.{instruction_in, meaning_in, item_in, IsItemIn, IsKindIn};
ghost use Rattle.teco_scan.specs.Closes.{close_of, past_of};
ghost use Rattle.teco_scan.specs.Lists.{at_instruction, at_mark, at_scan, broken, cond_at, list_at};
ghost use Rattle.teco_scan.specs.declared.command.Modifiers.{Modifiers};
ghost use Rattle.teco_scan.specs.declared.command.Test.{Test};
ghost use Rattle.std.specs.Prelude.{Ok};
ghost use Rattle.teco_check.specs.Clean.{is_fine, is_clean, is_whole, is_written_out, clean_within};
ghost use Rattle.teco_scan.specs.Walk.{OpenList};
ghost use Rattle.teco_scan.specs.Walk as walked;
ghost use Rattle.teco_check.specs.Walk.{by_check, first_within, rule, told_item, check_walk, wrong_with};
ghost use Rattle.teco_check.specs.Checks.{ItemFine, ItemFirst, ListBreaks, ListClean, ListFirst, NodeBreaks, NodeClean, NodeCloses, NodeFirst, from_conditional, from_token, walk_from_conditional, walk_from_token};
ghost use Rattle.teco_check.specs.Walked.{BeginThere, after_node, after_list};
ghost use Rattle.teco_check.specs.Checked.{item_holds, item_length, inner_length, held, may_hold, lands_below, AreInside, AreOpen, IsFaultHere, is_stray, suits, code_of, rest_clean};

use crate::ends::{end_of_list, end_of_text};
use crate::jumps::{LISTS, gathered, lands_below};
use std::alloc::Global;
use teco_core::{BLOCK_LIMIT, Code, Profile, Reg};
use teco_scan::{
    Found, Item, Kind, Modifiers, RegisterCommand, SkipEnd, Span, Tags, TextCommand, Token,
    TokenKind, block_laws, closing_mark, filler_end, spelling, token_at,
};

/// What is wrong.
#[derive(Clone, Copy)]
pub enum Wrong {
    /// The bytes are no token: ILL, IQN, IQC or UTC.
    Unreadable(Code),
    /// A mark closes or divides no such block: BNI or ILL. The place is that of the innermost open block, if there is one.
    Stray(Code, Option<usize>),
    /// The block that is opened here doesn't end: UTC.
    Unended,
    /// The 65th open block: PDO.
    TooDeep,
    /// The jump lands nowhere: TAG.
    NoTag,
    /// A register is called that holds no code.
    Calls,
    /// What is in the buffer, or what was pushed, is put where code is, or a text behind the one that is there.
    Loads,
    /// A text that has a fault is put where code is, or one that lies in as many others as are looked into.
    InText,
}

/// A fault, and its place: that of the token, or of the fillers before it.
#[derive(Clone, Copy)]
pub struct Fault {
    pub at: usize,
    pub wrong: Wrong,
}

/// How many registers there are.
pub const REGISTERS: usize = 36;

/// The most texts in one another that are looked into. Each takes stack for its open blocks, so there is a bound.
pub const MOST_TEXTS: usize = 8;

/// The profile that texts are read in, the registers that hold code, how many texts in one another are still looked into, and the tags
/// that were gathered of a text.
#[derive(Clone, Copy)]
struct Look<'c, 'g, 't> {
    profile: Profile,
    code: &'c [bool; REGISTERS],
    texts: usize,
    memory: Option<Global>,
    tags: &'g Tags<'t>,
}

/// Whether the register of an item holds code, if it has one.
fn holds_code(code: &[bool; REGISTERS], item: &Item) -> bool
    ensures { result ≡ item_holds (held code.now) item.now }
{
    match item {
        Item::Register(_, register) => code[register.index()],
        Item::SetText(register, _) => code[register.index()],
        _ => false,
    }
}

/// Whether a text is all that its register gets: with a colon it comes behind another, and in Wide nothing written may stand for a byte
/// that a number gives.
fn is_all(profile: Profile, modifiers: Modifiers, text: &[u8]) -> bool
    ensures { result ≡ is_whole modifiers && is_written_out profile text.now }
{
    let is_written_out = match profile {
        Profile::Named => true,
        Profile::Wide => !text.is_empty(),
    };
    modifiers.colons != 1 && is_written_out
}

/// What is wrong with an item where so many lists are open, if it is not fine.
#[cycle(check)]
fn wrong_of(
    text: &[u8],
    look: Look<'_, '_, '_>,
    modifiers: Modifiers,
    item: Item,
    starts: &[usize; LISTS],
    count: usize,
) -> Option<Wrong>
    requires few { count ≤ BLOCK_LIMIT + 1 }
    requires inside { AreInside text.now starts.now count }
    requires item { IsItemIn (length text.now) item }
    requires short { item_length item < length text.now }
    requires tags { look.tags.now.bytes.now ≡ text.now }
    requires named { look.tags.now.profile ≡ look.profile }
    ensures fine { ItemFine look.entry.profile (rule look.entry.profile look.entry.texts look.entry.code.now) text.now starts.now count
        modifiers (item_in text.now item) (is_none result) }
    ensures first { (lists : List OpenList) → length lists ≡ count → BeginThere look.entry.profile text.now starts.now lists
        → result ≡ wrong_with look.entry.profile (rule look.entry.profile look.entry.texts look.entry.code.now) text.now lists modifiers (item_in text.now item) }
    ensures suits { IfSome result (λ wrong. suits wrong (step (item_in text.now item)) ≡ true) }
    ensures code { IfSome result (λ wrong. code_of wrong ≡ None) }
{
    let holds = holds_code(look.code, &item);
    match item {
        Item::Text(TextCommand::Go, name) => {
            if lands_below(look.tags, starts, count, &text[name.from..name.to]) {
                return None;
            }
            Some(Wrong::NoTag)
        }
        Item::Register(RegisterCommand::Macro, _) => {
            if holds {
                return None;
            }
            Some(Wrong::Calls)
        }
        Item::Register(RegisterCommand::Extract | RegisterCommand::Pop, _) => {
            if holds {
                return Some(Wrong::Loads);
            }
            None
        }
        Item::SetText(_, span) => {
            if !holds {
                return None;
            }
            let inside = &text[span.from..span.to];
            if !is_all(look.profile, modifiers, inside) {
                return Some(Wrong::Loads);
            }
            if look.texts == 0 {
                return Some(Wrong::InText);
            }
            if check_text(look.profile, inside, look.code, look.texts - 1, look.memory).is_none() {
                return None;
            }
            Some(Wrong::InText)
        }
        _ => None,
    }
}

/// The item of a token with this span and these modifiers, where so many lists are open: the place after it, if it is fine.
#[cycle(check)]
fn check_item(
    text: &[u8],
    look: Look<'_, '_, '_>,
    span: Span,
    modifiers: Modifiers,
    item: Item,
    starts: &[usize; LISTS],
    count: usize,
) -> Result<usize, Fault>
    requires few { count ≤ BLOCK_LIMIT + 1 }
    requires inside { AreInside text.now starts.now count }
    requires item { IsItemIn (length text.now) item }
    requires short { item_length item < length text.now }
    requires tags { look.tags.now.bytes.now ≡ text.now }
    requires named { look.tags.now.profile ≡ look.profile }
    ensures fine { ItemFine look.entry.profile (rule look.entry.profile look.entry.texts look.entry.code.now) text.now starts.now count
        modifiers (item_in text.now item) (is_ok result) }
    ensures place { IfOk result (λ x. x ≡ span.to) }
    ensures first { ItemFirst look.entry.profile (rule look.entry.profile look.entry.texts look.entry.code.now) text.now starts.now count
        modifiers (item_in text.now item) span.from span.to result }
    ensures suits { IfErr result (λ fault. (fault.at ≡ span.from)
        × (suits fault.wrong (step (item_in text.now item)) ≡ true)) }
    ensures code { IfErr result (λ fault. code_of fault.wrong ≡ None) }
{
    match wrong_of(text, look, modifiers, item, starts, count) {
        None => Ok(span.to),
        Some(wrong) => Err(Fault {
            at: span.from,
            wrong,
        }),
    }
}

/// A conditional directly in a list, from after its test on: the place after it.
#[cycle(check)]
fn check_conditional(
    text: &[u8],
    look: Look<'_, '_, '_>,
    opening: usize,
    at: usize,
    depth: usize,
    starts: &[usize; LISTS],
) -> Result<usize, Fault>
    requires inside { at ≤ length text.now }
    requires few { depth < BLOCK_LIMIT }
    requires opened { IsFaultHere look.profile (drop opening text.now) Wrong.Unended }
    requires starts { AreInside text.now starts.now (depth + 1) }
    requires tags { look.tags.now.bytes.now ≡ text.now }
    requires named { look.tags.now.profile ≡ look.profile }
    ensures clean { (test : Test) → NodeClean look.entry.profile (rule look.entry.profile look.entry.texts look.entry.code.now) text.now starts.now depth
        (from_conditional look.entry.profile text.now at test depth) result }
    ensures first { NodeFirst look.entry.profile (rule look.entry.profile look.entry.texts look.entry.code.now) text.now starts.now depth
        (walk_from_conditional look.entry.profile (rule look.entry.profile look.entry.texts look.entry.code.now) text.now opening at) result }
    ensures closes { (test : Test) → NodeCloses look.entry.profile text.now depth (from_conditional look.entry.profile text.now at test depth) result }
    ensures within { IfOk result (λ to. (at ≤ to) × (to ≤ length text.now)) }
    ensures place { IfErr result (λ fault. IsFaultHere look.entry.profile (drop fault.at text.now) fault.wrong) }
    ensures breaks { (test : Test) → NodeBreaks (from_conditional look.entry.profile text.now at test depth) result }
{
    let stop = check_list(text, look, opening, at, Some(Kind::Then), depth + 1, starts)?;
    if stop.divided {
        let end = check_list(
            text,
            look,
            opening,
            stop.to,
            Some(Kind::Else),
            depth + 1,
            starts,
        )?;
        return Ok(end.to);
    }
    Ok(stop.to)
}

/// A token and, where it opens a block, the whole of that: the place after it.
#[cycle(check)]
fn check_node(
    text: &[u8],
    look: Look<'_, '_, '_>,
    token: Token,
    depth: usize,
    starts: &[usize; LISTS],
) -> Result<usize, Fault>
    requires inside { token.span.to ≤ length text.now }
    requires long { token.span.from + inner_length token.kind < token.span.to }
    requires kind { IsKindIn (length text.now) token.kind }
    requires few { depth ≤ BLOCK_LIMIT }
    requires starts { AreInside text.now starts.now (depth + 1) }
    requires token { scan look.profile (drop token.span.from text.now) ≡ found (meaning_in text.now token) (drop token.span.to text.now) }
    requires node { closing_mark (instruction_in text.now token.kind) ≡ None }
    requires tags { look.tags.now.bytes.now ≡ text.now }
    requires named { look.tags.now.profile ≡ look.profile }
    ensures clean { NodeClean look.entry.profile (rule look.entry.profile look.entry.texts look.entry.code.now) text.now starts.now depth
        (from_token look.entry.profile text.now token token.modifiers depth) result }
    ensures first { NodeFirst look.entry.profile (rule look.entry.profile look.entry.texts look.entry.code.now) text.now starts.now depth
        (walk_from_token look.entry.profile (rule look.entry.profile look.entry.texts look.entry.code.now) text.now token) result }
    ensures closes { (m : Modifiers) → NodeCloses look.entry.profile text.now depth (from_token look.entry.profile text.now token m depth) result }
    ensures within { IfOk result (λ to. (token.span.to ≤ to) × (to ≤ length text.now)) }
    ensures place { IfErr result (λ fault. IsFaultHere look.entry.profile (drop fault.at text.now) fault.wrong) }
    ensures breaks { (m : Modifiers) → NodeBreaks (from_token look.entry.profile text.now token m depth) result }
{
    let from = token.span.from;
    let to = token.span.to;
    let span = token.span;
    let modifiers = token.modifiers;
    match token.kind {
        TokenKind::Mark(_) => {
            if depth == BLOCK_LIMIT {
                return Err(Fault {
                    at: from,
                    wrong: Wrong::TooDeep,
                });
            }
            let stop = check_list(text, look, from, to, Some(Kind::Iter), depth + 1, starts)?;
            Ok(stop.to)
        }
        TokenKind::Test(_) => {
            if depth == BLOCK_LIMIT {
                return Err(Fault {
                    at: from,
                    wrong: Wrong::TooDeep,
                });
            }
            check_conditional(text, look, from, to, depth, starts)
        }
        TokenKind::Item(item) => check_item(text, look, span, modifiers, item, starts, depth + 1),
        TokenKind::Tag(_) => Ok(to),
        TokenKind::Escape => Ok(to),
    }
}

/// A list from its beginning on: where it closes, or its first fault.
#[cycle(check)]
fn check_list(
    text: &[u8],
    look: Look<'_, '_, '_>,
    opening: usize,
    at: usize,
    kind: Option<Kind>,
    depth: usize,
    around: &[usize; LISTS],
) -> Result<SkipEnd, Fault>
    requires inside { at ≤ length text.now }
    requires few { depth ≤ BLOCK_LIMIT }
    requires opened { kind ≢ None → IsFaultHere look.profile (drop opening text.now) Wrong.Unended }
    requires starts { AreInside text.now around.now depth }
    requires tags { look.tags.now.bytes.now ≡ text.now }
    requires named { look.tags.now.profile ≡ look.profile }
    ensures clean { ListClean look.entry.profile (rule look.entry.profile look.entry.texts look.entry.code.now) text.now around.now depth
        (list_at look.entry.profile kind depth (drop at text.now)) result }
    ensures first { ListFirst look.entry.profile (rule look.entry.profile look.entry.texts look.entry.code.now) text.now around.now depth
        (record { kind = kind; opening = opening; start = at }) result }
    ensures closes { (b : Kind) → kind ≡ Some b
        → IfOk result (λ stop. (list_at look.entry.profile kind depth (drop at text.now)).1 ≡ close_of text.now (Ok stop)) }
    ensures within { IfOk result (λ stop. (at ≤ stop.to) × (stop.to ≤ length text.now)) }
    ensures place { IfErr result (λ fault. IsFaultHere look.entry.profile (drop fault.at text.now) fault.wrong) }
    ensures breaks { ListBreaks (list_at look.entry.profile kind depth (drop at text.now)) result }
{
    block_laws();
    spelling();
    let mut starts = *around;
    starts[depth] = at;
    let mut next = at;
    loop {
        match token_at(look.profile, text, next) {
            Found::End => return end_of_text(kind, opening, next),
            Found::Fault(code) => return Err(Fault {
                at: filler_end(text, next),
                wrong: Wrong::Unreadable(code),
            }),
            Found::Token(token) => match closing_mark(token.kind) {
                Some(mark) => return end_of_list(
                    kind,
                    opening,
                    mark,
                    token.span.from,
                    token.span.to,
                ),
                None => next = check_node(text, look, token, depth, &starts)?,
            },
        }
    }
}

/// The first fault of a text whose tags are given.
#[cycle(check)]
fn check_gathered(text: &[u8], look: Look<'_, '_, '_>) -> Option<Fault>
    requires tags { look.tags.now.bytes.now ≡ text.now }
    requires named { look.tags.now.profile ≡ look.profile }
    ensures first { result ≡ first_within look.entry.profile look.entry.texts look.entry.code.now text.now }
    ensures clean { clean_within look.entry.profile (suc look.entry.texts) (held look.entry.code.now) text.now ≡ is_none result }
    ensures place { IfSome result (λ fault. IsFaultHere look.entry.profile (drop fault.at text.now) fault.wrong) }
    ensures breaks { (code : Code)
        → IfSome result (λ fault. code_of fault.wrong ≡ Some code → (list_at look.entry.profile None 0 text.now).1 ≡ broken code) }
{
    match check_list(text, look, 0, 0, None, 0, &[0; LISTS]) {
        Ok(_) => None,
        Err(fault) => Some(fault),
    }
}

/// The first fault of a text in a profile. Without memory each jump searches for its tag.
#[cycle(check)]
pub(crate) fn check_text(
    profile: Profile,
    text: &[u8],
    code: &[bool; REGISTERS],
    texts: usize,
    memory: Option<Global>,
) -> Option<Fault>
    ensures first { result ≡ first_within profile texts code.now text.now }
    ensures clean { clean_within profile (suc texts) (held code.now) text.now ≡ is_none result }
    ensures place { IfSome result (λ fault. IsFaultHere profile (drop fault.at text.now) fault.wrong) }
    ensures breaks { (code : Code)
        → IfSome result (λ fault. code_of fault.wrong ≡ Some code → (list_at profile None 0 text.now).1 ≡ broken code) }
{
    let tags = gathered(profile, text, memory);
    let look = Look {
        profile,
        code,
        texts,
        memory,
        tags: &tags,
    };
    check_gathered(text, look)
}
