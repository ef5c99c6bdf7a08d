//! What skips and jumps in a text came to last, so that a loop finds it at once.
ghost use Rattle.std.specs.Prelude.{◌≡◌, ◌<◌, ◌≤◌, IfErr, IfOk, IfSome, Some, drop, length, true};
ghost use Rattle.teco_scan.specs.Lists.{behind_block, closed, list_at, tag_at};
ghost use Rattle.teco_scan.specs.Seen.{IsSpanIn, bytes_in};
ghost use Rattle.teco_scan.specs.Closes.{close_of, past_of, tag_of};
ghost use Rattle.teco_scan.specs.Tree.{is_fault};
ghost use Rattle.teco_scan.specs.declared.blocks.Kind.TheVariants.{Then};

use std::alloc::Global;
use std::marker::Model;
use teco_core::{BLOCK_LIMIT, Code};
use teco_scan::{Kind, SkipEnd, Span, Tags, Text, find_tag, skip_block};

/// The most skips that are remembered of a text.
const SKIPS: usize = 8;

/// The most searches that are remembered of a text.
const SEARCHES: usize = 4;

/// The most bytes that searches walk before tags are gathered, however short the text is.
const WALKED_LEAST: usize = 4096;

/// How many times the length of a text searches walk before its tags are gathered.
const WALKS: usize = 8;

/// A skip that was made, from a place in a block of this kind and at this depth, and where it stopped.
#[derive(Clone, Copy)]
pub(crate) struct Skip {
    pub at: u32,
    pub to: u32,
    pub depth: u8,
    pub kind: Kind,
    pub divided: bool,
}

/// A search for a tag that was made, in the list that begins at a place and at this depth. Its name lies in the text too.
#[derive(Clone, Copy)]
pub(crate) struct Search {
    pub start: u32,
    pub depth: u8,
    pub from: u32,
    pub to: u32,
    /// The place after the tag, if there is one.
    pub found: Option<u32>,
}

impl Search {
    /// The place after the tag, if there is one.
    fn place(self) -> Option<usize>
        ensures { result ≡ self.found }
    {
        match self.found {
            Some(to) => Some(to as usize),
            None => None,
        }
    }
}

/// The latest skips and searches of a text. A skip that was refused is not remembered.
///
/// A clause sees the text. What is remembered of it changes nothing that a clause says.
#[derive(Drop)]
pub(crate) struct Remembered<'t> {
    text: Text<'t>,
    skips: [Option<Skip>; SKIPS],
    searches: [Option<Search>; SEARCHES],
    /// How many bytes searches have walked, at most.
    walked: usize,
    /// The tags of the lists that were searched since that was much.
    tags: Tags<'t>,
    /// Where to look first: by the place in the text, modulo [`SKIPS`], which of the skips was the latest there.
    likely_skips: [u8; SKIPS],
    /// Which skip, modulo [`SKIPS`], is the oldest, whose room the next one takes.
    oldest_skip: u8,
    /// Which search, modulo [`SEARCHES`], is the oldest, whose room the next one takes.
    oldest_search: u8,
}

impl<'t> Model for Remembered<'t> {
    ghost use Rattle.std.specs.Prelude.{◌≡◌, All};
    ghost use Rattle.teco_scan.specs.declared.text.Text.{Text};
    ghost use Rattle.teco_exec.specs.Remembered.{IsSearchIfAny, IsSkipIfAny};

    ghost Value = { Text };

    ghost view = { λ r. r.text };

    ghost invariant = { λ r. (All (IsSkipIfAny r.text.profile r.text.bytes.now) r.skips)
        × (All (IsSearchIfAny r.text.profile r.text.bytes.now) r.searches)
        × (r.tags ≡ r.text) };
}

impl<'t> Remembered<'t> {
    ghost use Rattle.std.specs.Prelude.{◌≡◌, ◌≤◌};
    ghost use Rattle.teco_exec.specs.Remembered.{IsSearchOf};

    /// Nothing is remembered of this text.
    pub fn new(text: Text<'t>, memory: Option<Global>) -> Remembered<'t>
        ensures { result ≡ text.entry }
    {
        Remembered {
            text,
            skips: [None; SKIPS],
            searches: [None; SEARCHES],
            walked: 0,
            tags: Tags::new(text, memory),
            likely_skips: [0; SKIPS],
            oldest_skip: 0,
            oldest_search: 0,
        }
    }

    /// What [`skip_block`] gives of the text. It is found at once where it is one of the latest.
    pub fn skip(&mut self, at: usize, kind: Kind, depth: usize) -> Result<SkipEnd, Code>
        requires inside { at ≤ length self.old.bytes.now }
        requires few { depth ≤ BLOCK_LIMIT }
        ensures text { self.new ≡ self.old }
        ensures closes { close_of self.old.bytes.now result ≡ (list_at self.old.profile (Some kind) depth (drop at self.old.bytes.now)).1 }
        ensures within { IfOk result (λ stop. stop.to ≤ length self.old.bytes.now) }
        ensures divided { IfOk result (λ stop. stop.divided ≡ true → kind ≡ Then) }
        ensures fault { IfErr result (λ code. is_fault code ≡ true) }
    {
        let likely = usize::from(self.likely_skips[at % SKIPS]) % SKIPS;
        match self.skipped(likely, at, kind, depth) {
            Some(stop) => Ok(stop),
            None => self.skip_apart(at, kind, depth),
        }
    }

    /// What [`skip_whole_block`] gives of the text, by at most two such skips.
    pub fn skip_whole(&mut self, at: usize, kind: Kind, depth: usize) -> Result<usize, Code>
        requires inside { at ≤ length self.old.bytes.now }
        requires few { depth ≤ BLOCK_LIMIT }
        ensures text { self.new ≡ self.old }
        ensures passes { past_of self.old.bytes.now result
            ≡ behind_block (list_at self.old.profile) kind depth (list_at self.old.profile (Some kind) depth (drop at self.old.bytes.now)).1 }
        ensures within { IfOk result (λ to. to ≤ length self.old.bytes.now) }
        ensures fault { IfErr result (λ code. is_fault code ≡ true) }
    {
        let stop = self.skip(at, kind, depth)?;
        if stop.divided {
            let end = self.skip(stop.to, Kind::Else, depth)?;
            return Ok(end.to);
        }
        Ok(stop.to)
    }

    /// What [`find_tag`] gives of the text, for a name that lies in it. It is found at once where it is one of the latest.
    pub fn tag(&mut self, start: usize, depth: usize, name: Span) -> Option<usize>
        requires inside { start ≤ length self.old.bytes.now }
        requires few { depth ≤ BLOCK_LIMIT }
        requires name { IsSpanIn (length self.old.bytes.now) name }
        ensures text { self.new ≡ self.old }
        ensures finds { tag_of self.old.bytes.now result ≡ tag_at self.old.profile (bytes_in self.old.bytes.now name) depth (drop start self.old.bytes.now) }
        ensures within { IfSome result (λ to. to ≤ length self.old.bytes.now) }
    {
        match self.searched(start, depth, name) {
            Some(search) => search.place(),
            None => self.search_anew(start, depth, name),
        }
    }

    /// Where this skip stopped, if it is the one of this number.
    #[inline(always)]
    fn skipped(&self, number: usize, at: usize, kind: Kind, depth: usize) -> Option<SkipEnd>
        requires { number < SKIPS }
        ensures closes { IfSome result (λ stop.
            closed stop.divided (drop stop.to self.now.bytes.now) ≡ (list_at self.now.profile (Some kind) depth (drop at self.now.bytes.now)).1) }
        ensures within { IfSome result (λ stop. stop.to ≤ length self.now.bytes.now) }
        ensures divided { IfSome result (λ stop. stop.divided ≡ true → kind ≡ Then) }
    {
        let skip = self.skips[number]?;
        if skip.at as usize == at && skip.depth as usize == depth && skip.kind == kind {
            return Some(SkipEnd {
                to: skip.to as usize,
                divided: skip.divided,
            });
        }
        None
    }

    /// Where this skip stopped, if it is remembered.
    fn skipped_before(&self, at: usize, kind: Kind, depth: usize) -> Option<SkipEnd>
        ensures closes { IfSome result (λ stop.
            closed stop.divided (drop stop.to self.now.bytes.now) ≡ (list_at self.now.profile (Some kind) depth (drop at self.now.bytes.now)).1) }
        ensures within { IfSome result (λ stop. stop.to ≤ length self.now.bytes.now) }
        ensures divided { IfSome result (λ stop. stop.divided ≡ true → kind ≡ Then) }
    {
        for number in 0..SKIPS {
            if let Some(stop) = self.skipped(number, at, kind, depth) {
                return Some(stop);
            }
        }
        None
    }

    /// Does what [`Remembered::skip`] does, out of line: looks at each skip that is remembered, and else skips in the text.
    #[inline(never)]
    fn skip_apart(&mut self, at: usize, kind: Kind, depth: usize) -> Result<SkipEnd, Code>
        requires inside { at ≤ length self.old.bytes.now }
        requires few { depth ≤ BLOCK_LIMIT }
        ensures text { self.new ≡ self.old }
        ensures closes { close_of self.old.bytes.now result ≡ (list_at self.old.profile (Some kind) depth (drop at self.old.bytes.now)).1 }
        ensures within { IfOk result (λ stop. stop.to ≤ length self.old.bytes.now) }
        ensures divided { IfOk result (λ stop. stop.divided ≡ true → kind ≡ Then) }
        ensures fault { IfErr result (λ code. is_fault code ≡ true) }
    {
        match self.skipped_before(at, kind, depth) {
            Some(stop) => Ok(stop),
            None => self.skip_anew(at, kind, depth),
        }
    }

    /// Skips in the text, and remembers it.
    fn skip_anew(&mut self, at: usize, kind: Kind, depth: usize) -> Result<SkipEnd, Code>
        requires inside { at ≤ length self.old.bytes.now }
        requires few { depth ≤ BLOCK_LIMIT }
        ensures text { self.new ≡ self.old }
        ensures closes { close_of self.old.bytes.now result ≡ (list_at self.old.profile (Some kind) depth (drop at self.old.bytes.now)).1 }
        ensures within { IfOk result (λ stop. stop.to ≤ length self.old.bytes.now) }
        ensures divided { IfOk result (λ stop. stop.divided ≡ true → kind ≡ Then) }
        ensures fault { IfErr result (λ code. is_fault code ≡ true) }
    {
        let stop = skip_block(self.text.profile, self.text.bytes, at, kind, depth)?;
        if self.text.bytes.len() <= u32::MAX as usize {
            let oldest = usize::from(self.oldest_skip) % SKIPS;
            self.skips[oldest] = Some(Skip {
                at: at as u32,
                to: stop.to as u32,
                depth: depth as u8,
                kind,
                divided: stop.divided,
            });
            self.likely_skips[at % SKIPS] = oldest as u8;
            self.oldest_skip = oldest as u8 + 1;
        }
        Ok(stop)
    }

    /// This search, if it is remembered. What comes after the first free room is free too.
    #[inline(always)]
    fn searched(&self, start: usize, depth: usize, name: Span) -> Option<Search>
        ensures is { IfSome result (λ search. IsSearchOf self.now.profile self.now.bytes.now search) }
        ensures asked { IfSome result (λ search. (search.start ≡ start) × (search.depth ≡ depth)) }
        ensures named { IfSome result (λ search. (search.from ≡ name.from) × (search.to ≡ name.to)) }
    {
        for number in 0..SEARCHES {
            let search = self.searches[number]?;
            if search.start as usize == start
                && search.depth as usize == depth
                && search.from as usize == name.from
                && search.to as usize == name.to
            {
                return Some(search);
            }
        }
        None
    }

    /// Searches the text for a tag, and remembers it.
    #[inline(never)]
    fn search_anew(&mut self, start: usize, depth: usize, name: Span) -> Option<usize>
        requires inside { start ≤ length self.old.bytes.now }
        requires few { depth ≤ BLOCK_LIMIT }
        requires name { IsSpanIn (length self.old.bytes.now) name }
        ensures text { self.new ≡ self.old }
        ensures finds { tag_of self.old.bytes.now result ≡ tag_at self.old.profile (bytes_in self.old.bytes.now name) depth (drop start self.old.bytes.now) }
        ensures within { IfSome result (λ to. to ≤ length self.old.bytes.now) }
    {
        let text = self.text.bytes;
        let found = self.search_text(start, depth, &text[name.from..name.to]);
        if text.len() <= u32::MAX as usize {
            let oldest = usize::from(self.oldest_search) % SEARCHES;
            self.searches[oldest] = Some(Search {
                start: start as u32,
                depth: depth as u8,
                from: name.from as u32,
                to: name.to as u32,
                found: match found {
                    Some(to) => Some(to as u32),
                    None => None,
                },
            });
            self.oldest_search = oldest as u8 + 1;
        }
        found
    }

    /// Searches the text for a tag, in what was gathered once much was walked.
    fn search_text(&mut self, start: usize, depth: usize, name: &[u8]) -> Option<usize>
        requires inside { start ≤ length self.old.bytes.now }
        requires few { depth ≤ BLOCK_LIMIT }
        ensures text { self.new ≡ self.old }
        ensures finds { tag_of self.old.bytes.now result ≡ tag_at self.old.profile name.now depth (drop start self.old.bytes.now) }
        ensures within { IfSome result (λ to. to ≤ length self.old.bytes.now) }
    {
        let len = self.text.bytes.len();
        if self.walked < WALKED_LEAST || self.walked / WALKS < len {
            let found = find_tag(self.text.profile, self.text.bytes, start, depth, name);
            let end = found.unwrap_or(len);
            self.walked = self.walked.saturating_add(end.saturating_sub(start));
            return found;
        }
        if self.tags.gather(start, depth).is_err() {
            self.walked = 0;
        }
        self.tags.find(start, depth, name)
    }
}
