//! Serving a stream of commands, while what is done is kept.
ghost use Rattle.std.specs.Prelude.{◌≡◌, is_some};
ghost use Rattle.teco_io.specs.Source.{Gives, HasEnded};
ghost use Rattle.teco_io.specs.Terminal.{Shows};
ghost use Rattle.teco_recorder.specs.Recording.{IsRecorded, recording};
ghost use Rattle.teco_serve.specs.Exchange.{HasRung, allowance};
ghost use Rattle.teco_serve.specs.Serving.{Serves};
ghost use Rattle.teco_session.specs.Kept.{history_of};

use crate::recorder::Recorder;
use std::alloc::Global;
use teco_fs::Disk;
use teco_io::{Source, Terminal};
use teco_serve::{Alarm, Listens, Served, Settings, serve};
use teco_session::Session;

/// Serves a stream of commands as [`serve`] does. The line of what each request did stands in the session's file before its answer is shown,
/// unless a line could not be written: then the serving goes on, and no more lines are written. All that was written outlasts a crash of the
/// machine then.
pub fn serve_recorded<S: Source, A: Alarm, T: Terminal, L: Listens, D: Disk>(
    alloc: Global,
    source: &mut S,
    session: &mut Session,
    settings: Settings,
    alarm: &mut A,
    term: &mut T,
    recorder: &mut Recorder<'_, D, L>,
) -> Served
    ensures serves { Serves (allowance settings.bounds (HasRung A.answered)) settings.manner
        (Gives S.coming S.bound S.failures source.old source.new)
        (HasEnded (S.coming source.new) (S.ended source.new))
        (Shows (T.screen term.old) (T.screen term.new))
        (history_of session.old) (history_of session.new) result }
    ensures recorded { IsRecorded (recording (D.seen recorder.old.disk.now) recorder.old.file.now (is_some recorder.old.broken))
        (recording (D.seen recorder.new.disk.now) recorder.new.file.now (is_some recorder.new.broken))
        (history_of session.old) (history_of session.new) }
    ensures same_disk { recorder.new.disk.ghost_name ≡ recorder.old.disk.ghost_name }
    ensures same_listener { recorder.new.listener.ghost_name ≡ recorder.old.listener.ghost_name }
    ensures same_file { recorder.new.file.ghost_name ≡ recorder.old.file.ghost_name }
{
    let served = serve(alloc, source, session, settings, alarm, term, recorder);
    recorder.settle();
    served
}
