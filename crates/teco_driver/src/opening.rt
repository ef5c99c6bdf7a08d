//! The file that keeps a session is opened. Where much is run again for that, it is told before.
ghost use Rattle.std.specs.Prelude.{◌≡◌, ◌≤◌, IfErr, IfOk, OnErr, length};
ghost use Rattle.std.specs.Option.{ForSome};
ghost use Rattle.teco_core.specs.declared.limits.TheConstants.{DEPTH_LIMIT, FILE_LIMIT};
ghost use Rattle.teco_driver.specs.SessionLines.{session_name};
ghost use Rattle.teco_driver.specs.Sessions.{TellsAgain};
ghost use Rattle.teco_journal.specs.Heads.{beginning_in};
ghost use Rattle.teco_recorder.specs.Again.{HeardBy, HearsHeld, OpensHeard};
ghost use Rattle.teco_recorder.specs.Opening.{StaysClosed};
ghost use Rattle.teco_session.specs.Kept.{history_of};

use crate::session_lines::{again_line, session_name, tell};
use std::alloc::Global;
use teco_cli::Line;
use teco_fs::Disk;
use teco_io::Terminal;
use teco_journal::Start;
use teco_recorder::{Asked, HearsReplay, OpenFault, Opened, open_session};

/// Tells on standard error how many steps of a line's session are run again, where they are many.
#[derive(Drop)]
struct Teller<'a, E: Terminal> {
    alloc: Global,
    line: &'a Line,
    errors: &'a mut E,
}

impl<'a, E: Terminal> HearsReplay for Teller<'a, E> {
    ghost hears = { λ old new steps. (new.errors.ghost_name ≡ old.errors.ghost_name)
        × TellsAgain E.screen old.line.now old.errors.now new.errors.now steps };

    fn replays(&mut self, steps: u128) {
        tell(again_line(self.alloc, self.line, steps), self.errors);
    }
}

/// Opens the file that keeps the session of a line, as [`open_session`] does.
pub fn open_told<E: Terminal, D: Disk>(
    alloc: Global,
    line: &Line,
    start: Start<'_>,
    asked: Asked,
    disk: &mut D,
    errors: &mut E,
) -> Result<Opened<D>, OpenFault>
    requires input { length start.input.now ≤ FILE_LIMIT }
    requires depth { ForSome start.depth (λ depth. depth ≤ DEPTH_LIMIT) }
    ensures ok { let untold = errors.new ≡ errors.old in
        IfOk result (λ opened. OpensHeard untold (TellsAgain E.screen line.now errors.old errors.new) (beginning_in start.entry) asked
        (session_name line.now) (D.seen disk.old) (D.seen disk.new)
        (record {
          file = opened.file;
          history = history_of opened.session;
          records = opened.records;
          torn = opened.torn;
        })) }
    ensures err { OnErr result (StaysClosed (beginning_in start.entry) (session_name line.now) (D.seen disk.old) (D.seen disk.new)) }
    ensures told { let untold = errors.new ≡ errors.old in
        IfErr result (λ fault. HeardBy fault untold
        (HearsHeld (TellsAgain E.screen line.now errors.old errors.new) (session_name line.now) (D.seen disk.old))) }
{
    let mut teller = Teller {
        alloc,
        line,
        errors,
    };
    open_session(alloc, session_name(line), start, asked, disk, &mut teller)
}
