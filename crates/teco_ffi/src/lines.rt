//! A line of the file of a session: what C gives for it, and what it tells.
ghost use Rattle.std.specs.Prelude.{◌≡◌, ◌≢◌, ◌↔◌, ◌⊎◌, IfOk, IfSome, None, OnErr};
ghost use Rattle.teco_core.specs.Code.{number_of};
ghost use Rattle.teco_core.specs.declared.code.Code.TheVariants.{Mem};
ghost use Rattle.teco_journal.specs.Events.{event_of, event_told};
ghost use Rattle.teco_journal.specs.Heads.{first_check, whole_head};
ghost use Rattle.teco_journal.specs.Lines.{check_of, line_of, words_of};
ghost use Rattle.teco_ffi.specs.Lines.{IsNoLineTold, IsLineTold, KeepsLine, event_named, beginning_asked};

use crate::answers::OUTSIDE;
use crate::room::copy_front;
use std::alloc::Global;
use teco_core::{Code, NoMemory, Profile};
use teco_journal::{CHECK_LENGTH, Record, Start, new_head, push_record};

/// A command string was run.
pub const RAN: u8 = 1;

/// The last string that was not undone was undone.
pub const UNDID: u8 = 2;

/// The first undone string was done again.
pub const REDID: u8 = 3;

/// The last string that was not undone was cut.
pub const REWOUND: u8 = 4;

/// The undone strings were dropped.
pub const FORGOT: u8 = 5;

/// A line of the file of a session. The first four are the caller's, and the rest is what is told.
#[repr(C)]
pub struct Line<'a> {
    /// What was done, by its number.
    pub kind: u8,
    /// How many steps the string took, or is cut after.
    pub steps: u64,
    /// The check of the line before, and then of this one.
    pub check: [u8; CHECK_LENGTH],
    /// Where the bytes go.
    pub room: &'a mut [u8],
    /// How many bytes they are.
    pub made: usize,
}

/// The record of what was done, if the number is one of something.
fn record_named(
    alloc: Global,
    kind: u8,
    steps: u64,
    text: &[u8],
) -> Result<Option<Record>, NoMemory>
    ensures ok { IfOk result (λ told. event_told told ≡ event_named kind steps text.now) }
    ensures err { OnErr result (event_named kind steps text.now ≢ None) }
{
    Ok(match kind {
        RAN => Some(Record::Run {
            steps,
            text: Vec::from_slice(alloc, text)?,
        }),
        UNDID => Some(Record::Undo),
        REDID => Some(Record::Redo),
        REWOUND => Some(Record::Rewind(steps)),
        FORGOT => Some(Record::Forget),
        _ => None,
    })
}

impl Line<'_> {
    /// Tells these bytes, and if there is room for them their check.
    fn put(&mut self, bytes: &[u8], check: [u8; CHECK_LENGTH])
        ensures put { IsLineTold bytes.now check self.old self.new }
        ensures kept { KeepsLine self.old self.new }
    {
        self.made = bytes.len();
        if bytes.len() <= self.room.len() {
            copy_front(self.room, bytes);
            self.check = check;
        }
    }
}

/// The bytes of a record's line behind a check, and the check of that line.
fn line_behind(
    alloc: Global,
    last: [u8; CHECK_LENGTH],
    told: &Record,
) -> Result<(Vec<u8>, [u8; CHECK_LENGTH]), NoMemory>
    ensures { IfOk result (λ made. (made.0.items ≡ line_of last (words_of (event_of told.now)))
        × (made.1 ≡ check_of last (words_of (event_of told.now)))) }
{
    let mut bytes = Vec::new(alloc);
    let mut check = last;
    push_record(&mut bytes, &mut check, told)?;
    Ok((bytes, check))
}

/// Tells the line of what was done, as `teco_record` of the library for C does. 0, or OUTSIDE where nothing has this number, or the number
/// of MEM.
pub fn tell_record(alloc: Global, text: &[u8], line: &mut Line) -> u8
    ensures told { result ≡ 0 → IfSome (event_named line.old.kind line.old.steps text.now) (λ event.
        IsLineTold (line_of line.old.check (words_of event)) (check_of line.old.check (words_of event)) line.old line.new) }
    ensures outside { (result ≡ OUTSIDE) ↔ (event_named line.old.kind line.old.steps text.now ≡ None) }
    ensures refused { result ≢ 0 → IsNoLineTold line.old line.new }
    ensures else_memory { (result ≡ 0) ⊎ (result ≡ OUTSIDE) ⊎ (result ≡ number_of Mem) }
    ensures kept { KeepsLine line.old line.new }
{
    line.made = 0;
    let Ok(named) = record_named(alloc, line.kind, line.steps, text) else {
        return Code::Mem.number();
    };
    let Some(told) = named else {
        return OUTSIDE;
    };
    let last = line.check;
    let Ok(made) = line_behind(alloc, last, &told) else {
        return Code::Mem.number();
    };
    let check = made.1;
    line.put(made.0.as_slice(), check);
    0
}

/// Tells the head of the file of a session over this input, whose strings are read in this profile, with pages of so many lines and of this
/// depth, as `teco_head` of the library for C does in the profile Named. 0, or the number of MEM.
pub fn tell_head(
    alloc: Global,
    profile: Profile,
    input: &[u8],
    lines: usize,
    depth: usize,
    line: &mut Line,
) -> u8
    ensures told { let begun = beginning_asked profile lines depth input.now in
        result ≡ 0 → IsLineTold (whole_head begun) (first_check begun) line.old line.new }
    ensures refused { result ≢ 0 → IsNoLineTold line.old line.new }
    ensures else_memory { (result ≡ 0) ⊎ (result ≡ number_of Mem) }
    ensures kept { KeepsLine line.old line.new }
{
    line.made = 0;
    let start = Start {
        profile,
        lines,
        depth: if depth == 0 { None } else { Some(depth) },
        input,
    };
    let Ok(head) = new_head(alloc, start) else {
        return Code::Mem.number();
    };
    let check = head.check;
    line.put(head.bytes.as_slice(), check);
    0
}
