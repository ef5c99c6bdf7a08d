//! Reading the whole file of a session.
ghost use Rattle.std.specs.Prelude.{◌≡◌, ◌++◌, IfErr, IfOk, drop, length};
ghost use Rattle.teco_journal.specs.Events.{events_of};
ghost use Rattle.teco_journal.specs.Lines.{check_after};
ghost use Rattle.teco_journal.specs.Reading.{EndsAs};
ghost use Rattle.teco_journal.specs.Heads.{beginning_in, file_of, first_check};
ghost use Rattle.teco_journal.specs.Files.{FileFails, Holds};

use crate::head_reader::{HeadFault, read_head};
use crate::reader::{Journal, read_journal};
use crate::start::Start;
use std::alloc::Global;
use teco_core::NoMemory;

/// What the file of a session holds.
#[derive(Drop)]
pub struct SessionFile<'a> {
    pub start: Start<'a>,
    /// The records after the head. The good bytes are counted from the beginning of the file.
    pub journal: Journal,
}

/// Why a file is not read.
#[derive(Clone, Copy, Debug, PartialEq, Eq)]
pub enum SessionFault {
    /// It begins with no head, for this reason.
    Head(HeadFault),
    /// Memory was refused for its records.
    Memory,
}

impl From<HeadFault> for SessionFault {
    ghost use Rattle.std.specs.Prelude.{◌≡◌};
    ghost use Rattle.teco_journal.specs.declared.session_file.SessionFault.TheVariants as why;

    ghost from_gives = { λ head fault. fault ≡ why.Head head };

    fn from(fault: HeadFault) -> SessionFault {
        SessionFault::Head(fault)
    }
}

impl From<NoMemory> for SessionFault {
    ghost use Rattle.std.specs.Prelude.{◌≡◌};
    ghost use Rattle.teco_journal.specs.declared.session_file.SessionFault.TheVariants as why;

    ghost from_gives = { λ _ fault. fault ≡ why.Memory };

    fn from(_: NoMemory) -> SessionFault {
        SessionFault::Memory
    }
}

/// Reads the file of a session: its head, and the records after it as `read_journal` reads them.
pub fn read_session(alloc: Global, bytes: &[u8]) -> Result<SessionFile<'_>, SessionFault>
    ensures holds { IfOk result (λ file. Holds bytes.now (beginning_in file.start) (events_of file.journal.records.items)) }
    ensures front { IfOk result (λ file. bytes.now
        ≡ file_of (beginning_in file.start) (events_of file.journal.records.items) ++ drop file.journal.good bytes.now) }
    ensures good { IfOk result (λ file. file.journal.good
        ≡ length (file_of (beginning_in file.start) (events_of file.journal.records.items))) }
    ensures check { IfOk result (λ file. file.journal.check
        ≡ check_after (first_check (beginning_in file.start)) (events_of file.journal.records.items)) }
    ensures ending { IfOk result (λ file. EndsAs file.journal.check (drop file.journal.good bytes.now) file.journal.ending) }
    ensures fault { IfErr result (FileFails bytes.now) }
{
    let head = read_head(bytes)?;
    let mut journal = read_journal(alloc, head.check, head.rest)?;
    journal.good += bytes.len() - head.rest.len();
    Ok(SessionFile {
        start: head.start,
        journal,
    })
}
