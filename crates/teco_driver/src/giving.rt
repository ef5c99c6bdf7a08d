//! A run over one input of the line: by commands as they come, or by bytes that are had already.
ghost use Rattle.std.specs.Prelude.{◌≡◌, false, IfSome};
ghost use Rattle.teco_cli.specs.CommandLine.{IsDepth};
ghost use Rattle.teco_serve.specs.Exchange.{HasRung};
ghost use Rattle.teco_cli.specs.StreamNames.{is_standard_input};
ghost use Rattle.teco_driver.specs.declared.giving.Feed.TheVariants.{Stream};
ghost use Rattle.teco_driver.specs.Given.{come_as_wanted, host_view, is_streamed};
ghost use Rattle.teco_driver.specs.Runs.{LinkGiven};
ghost use Rattle.teco_fs.specs.Seen.{disk_seen};

use crate::concluding::conclude;
use crate::editing::{depth_of, edit_by, edit_by_stream};
use crate::host::Host;
use crate::keeping::keep_given;
use crate::word_source::WordSource;
use std::alloc::Global;
use teco_cli::{Commands, Line, is_standard_input};
use teco_fs::Disk;
use teco_io::{Source, Terminal};
use teco_serve::{Alarm, Listens};

/// Whether the commands come on standard input as they are wanted: no option gives them, or a name of it does.
fn come_as_wanted(commands: &Commands) -> bool
    ensures { result ≡ come_as_wanted commands.now }
{
    match commands {
        Commands::StandardInput => true,
        Commands::Bytes(name) => is_standard_input(name.as_str()),
        Commands::Sources(..) | Commands::Pages(_) => false,
    }
}

/// Whether the commands of the line are served to one input as they come.
pub fn is_streamed(line: &Line) -> bool
    ensures { result ≡ is_streamed line.now }
{
    come_as_wanted(&line.commands) && line.more.is_empty()
}

/// Where the commands of a run over one input come from.
#[derive(Clone, Copy)]
pub enum Feed<'a> {
    /// From standard input, as they are wanted.
    Stream,
    /// They are these bytes, which are had already.
    Bytes(&'a [u8]),
}

/// Edits this input of the line by the commands that come from there, and tells how that ends. Gives the status.
pub fn edit_given<S: Source, A: Alarm, T: Terminal, E: Terminal, L: Listens, D: Disk>(
    alloc: Global,
    line: &Line,
    name: &str,
    feed: Feed<'_>,
    host: &mut Host<S, A, T, D>,
    errors: &mut E,
    listener: &mut L,
) -> u8
    requires depth { IfSome line.now.undo IsDepth }
    requires apart { feed ≡ Stream → is_standard_input name.now ≡ false }
    ensures { let view = host_view (disk_seen D.Disk D.Input.Source) S.Source T.screen (HasRung A.answered) in
        LinkGiven view E.screen line.now feed.entry name.now (host.old, errors.old) (host.new, errors.new) result }
{
    if line.session.is_some() {
        return keep_given(alloc, line, name, feed, host, errors, listener);
    }
    let fate = match feed {
        Feed::Stream => edit_by_stream(alloc, line, name, host, listener),
        Feed::Bytes(bytes) => {
            let depth = depth_of(line, bytes);
            let mut given = WordSource::new(bytes);
            edit_by(alloc, line, name, depth, &mut given, host, listener)
        }
    };
    listener.ended(line, name, fate);
    conclude(alloc, line, name, fate, errors)
}
