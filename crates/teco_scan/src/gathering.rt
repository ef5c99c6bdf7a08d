//! The tags of a text, gathered list by list.
ghost use Rattle.std.specs.Prelude.{◌≡◌, ◌≤◌, List, ℕ, false, length, drop, IfOk, IfSome, MatchOption, OnOk};
ghost use Rattle.std.specs.Str.{bytes_eq};
ghost use Rattle.teco_core.specs.declared.limits.TheConstants.{BLOCK_LIMIT};
ghost use Rattle.teco_scan.specs.Closes.{tag_of};
ghost use Rattle.teco_scan.specs.Gathered.{AreTags, place_of, with_tag};
ghost use Rattle.teco_scan.specs.GatheredLists.{AreGathered};
ghost use Rattle.teco_scan.specs.Lists.{tag_at};
ghost use Rattle.teco_scan.specs.Skip.{is_tag};
ghost use Rattle.teco_scan.specs.Seen.{instruction_in};

use crate::blocks::{closing_mark, find_tag, passed_end, skip_node};
use crate::{Found, Span, Text, TokenKind, token_at};
use std::alloc::Global;
use std::collections::BTreeMap;
use std::marker::Model;
use teco_core::{BLOCK_LIMIT, NoMemory, Profile};

/// The tags that are directly in a list: the place after the first of each name.
type Places<'t> = BTreeMap<&'t [u8], usize>;

/// The tags of a list at this depth.
#[derive(Drop)]
pub(crate) struct ListTags<'t> {
    pub depth: usize,
    pub places: BTreeMap<&'t [u8], usize>,
}

/// The tags of lists, by the place where each list begins.
type Lists<'t> = BTreeMap<usize, ListTags<'t>>;

/// The tags of those lists of a text that were gathered, so that a jump finds one at once.
///
/// A clause sees the text. What was gathered of it changes nothing that a clause says.
pub struct Tags<'t> {
    text: Text<'t>,
    /// Without memory nothing is gathered.
    memory: Option<Global>,
    lists: Option<BTreeMap<usize, ListTags<'t>>>,
}

impl<'t> Model for Tags<'t> {
    ghost use Rattle.std.specs.Prelude.{IfSome};
    ghost use Rattle.teco_scan.specs.GatheredLists.{AreGathered};
    ghost use Rattle.teco_scan.specs.declared.text.Text.{Text};

    ghost Value = { Text };

    ghost view = { λ r. r.text };

    ghost invariant = { λ r. IfSome r.lists (AreGathered r.text.profile r.text.bytes.now) };
}

impl Drop for Tags<'_> {
    fn drop(self) {
        let Tags {
            text: _,
            memory: _,
            lists: _,
        } = self;
    }
}

/// The name of a tag, if the token is one.
fn tag_name(kind: TokenKind) -> Option<Span>
    ensures { MatchOption result ((text name : List ℕ) → is_tag name (instruction_in text kind) ≡ false)
        (λ name. kind ≡ TokenKind.Tag name) }
{
    match kind {
        TokenKind::Tag(name) => Some(name),
        _ => None,
    }
}

/// Keeps the place after a tag, unless there is one of its name.
fn keep_first<'t>(places: &mut Places<'t>, name: &'t [u8], to: usize) -> Result<(), NoMemory>
    ensures { OnOk result ((other : List ℕ)
        → place_of places.new other ≡ with_tag (bytes_eq name.now other) to (place_of places.old other)) }
{
    if !places.contains_key(name) {
        places.insert(name, to)?;
    }
    Ok(())
}

/// The tags that are directly in the block which goes on from a place: for each name what [`find_tag`] gives.
fn tags_in<'t>(
    alloc: Global,
    profile: Profile,
    text: &'t [u8],
    block_start: usize,
    depth: usize,
) -> Result<Places<'t>, NoMemory>
    requires inside { block_start ≤ length text.now }
    requires few { depth ≤ BLOCK_LIMIT }
    ensures { IfOk result (AreTags profile text.now block_start depth) }
{
    let mut places = BTreeMap::new(alloc);
    let mut next = block_start;
    'gathering: loop {
        let start = passed_end(text, next);
        match token_at(profile, text, start) {
            Found::End => return Ok(places),
            Found::Fault(_) => return Ok(places),
            Found::Token(token) => {
                if let Some(name) = tag_name(token.kind) {
                    keep_first(&mut places, &text[name.from..name.to], token.span.to)?;
                    next = token.span.to;
                    continue 'gathering;
                }
                if closing_mark(token.kind).is_some() {
                    return Ok(places);
                }
                match skip_node(profile, text, token, depth) {
                    Ok(to) => next = to,
                    Err(_) => return Ok(places),
                }
            }
        }
    }
}

/// Gathers the tags of the block which goes on from a place, unless those of a list from there are. Where memory is refused, nothing is kept of them.
fn add_list<'t>(
    lists: &mut Lists<'t>,
    alloc: Global,
    profile: Profile,
    text: &'t [u8],
    block_start: usize,
    depth: usize,
) -> Result<(), NoMemory>
    requires inside { block_start ≤ length text.now }
    requires few { depth ≤ BLOCK_LIMIT }
    requires gathered { AreGathered profile text.now lists.old }
    ensures { AreGathered profile text.now lists.new }
{
    if lists.contains_key(&block_start) {
        return Ok(());
    }
    let places = tags_in(alloc, profile, text, block_start, depth)?;
    lists.insert(block_start, ListTags { depth, places })?;
    Ok(())
}

impl<'t> Tags<'t> {
    ghost use Rattle.std.specs.Prelude.{◌≡◌, ◌≤◌};

    /// Nothing is gathered of this text yet.
    pub fn new(text: Text<'t>, memory: Option<Global>) -> Tags<'t>
        ensures { result ≡ text.entry }
    {
        Tags {
            text,
            memory,
            lists: None,
        }
    }

    /// Gathers the tags of the block which goes on from a place, unless they are gathered. Where memory is refused, nothing is kept of them.
    pub fn gather(&mut self, block_start: usize, depth: usize) -> Result<(), NoMemory>
        requires inside { block_start ≤ length self.old.bytes.now }
        requires few { depth ≤ BLOCK_LIMIT }
        ensures { self.new ≡ self.old }
    {
        let Some(alloc) = self.memory else {
            return Err(NoMemory);
        };
        let mut lists = match self.lists.take() {
            Some(lists) => lists,
            None => BTreeMap::new(alloc),
        };
        let added = add_list(
            &mut lists,
            alloc,
            self.text.profile,
            self.text.bytes,
            block_start,
            depth,
        );
        self.lists = Some(lists);
        added
    }

    /// Whether the tags of a block which goes on from a place are gathered.
    pub fn has(&self, block_start: usize) -> bool {
        match &self.lists {
            Some(lists) => lists.contains_key(&block_start),
            None => false,
        }
    }

    /// What [`find_tag`] gives of the text: at once where the tags of the block were gathered.
    pub fn find(&self, block_start: usize, depth: usize, name: &[u8]) -> Option<usize>
        requires inside { block_start ≤ length self.now.bytes.now }
        requires few { depth ≤ BLOCK_LIMIT }
        ensures finds { tag_of self.now.bytes.now result ≡ tag_at self.now.profile name.now depth (drop block_start self.now.bytes.now) }
        ensures within { IfSome result (λ to. to ≤ length self.now.bytes.now) }
    {
        if let Some(lists) = &self.lists
            && let Some(list) = lists.get(&block_start)
            && list.depth == depth
        {
            return list.places.get(name).copied();
        }
        find_tag(self.text.profile, self.text.bytes, block_start, depth, name)
    }
}
