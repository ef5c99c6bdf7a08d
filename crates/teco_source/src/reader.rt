//! Reading a source: which bytes it stands for.
ghost use Rattle.std.specs.Prelude.{◌≡◌, [], ◌∷◌, OnOk};
ghost use Rattle.teco_source.specs.Source.{start, marked, put, put_marked, ends_line, next_line, mark_in, blank_in, plain, begins_comment, step, is_wrong, ended, commands_of};
ghost use Rattle.teco_source.specs.Seen.{state_of, marked_of, kept, IsReadAs};
ghost use Rattle.teco_source.specs.Places.{waiting, bytes_begun};

use std::alloc::Global;
use teco_core::NoMemory;
use thiserror::Error;

/// Where in a line of a source a reader is.
#[derive(Clone, Copy)]
pub enum Mode {
    /// At the beginning of the source.
    First,
    /// At the beginning of a line, where blanks are layout.
    Margin,
    /// After a blank, or at the beginning of a line of the text.
    Blank,
    /// After another byte.
    Text,
    /// After a `#` at the beginning of the source.
    Hash,
    /// After an exclamation mark that may begin a comment.
    Mark,
    /// After a caret.
    Caret,
    /// In a comment.
    Comment,
    /// After a caret before what it cannot stand before.
    Wrong,
}

/// Why a source is not read.
#[derive(Clone, Copy, Debug, Drop, Error)]
pub enum ReaderFault {
    /// The caret at this place stands before what it cannot stand before. The place counts the bytes before it.
    #[error("a caret before what it cannot stand before")]
    Caret(usize),
    /// Memory was refused for the commands.
    #[error("no memory")]
    Memory,
}

impl From<NoMemory> for ReaderFault {
    ghost use Rattle.std.specs.Prelude.{◌≡◌};
    ghost use Rattle.teco_source.specs.declared.reader.ReaderFault.TheVariants.{Memory};

    ghost from_gives = { λ _ fault. fault ≡ Memory };

    fn from(_: NoMemory) -> ReaderFault {
        ReaderFault::Memory
    }
}

/// What has been read of a source.
#[derive(Drop)]
pub struct Reader {
    mode: Mode,
    /// The bytes so far.
    bytes: Vec<u8>,
    /// The blanks after them, which are bytes too if the line goes on.
    blanks: Vec<u8>,
}

/// What a caret and a byte stand for, if they can.
#[derive(Clone, Copy)]
enum Marked {
    Byte(u8),
    Nothing,
    Wrong,
}

fn after_caret(byte: u8) -> Marked
    ensures { marked_of result ≡ marked byte }
{
    match byte {
        b'$' | b'!' => Marked::Byte(byte),
        b'~' | b'=' => Marked::Byte(b'^'),
        b'?' => Marked::Byte(127),
        b'`' => Marked::Byte(b'\''),
        b'.' => Marked::Nothing,
        b'@'..=b'_' => Marked::Byte(byte - 64),
        b'a'..=b'z' => Marked::Byte(byte - 96),
        _ => Marked::Wrong,
    }
}

/// How many bytes wait in this mode for the next one.
fn waiting(mode: Mode) -> usize
    ensures { result ≡ waiting mode }
{
    match mode {
        Mode::Hash | Mode::Mark | Mode::Caret => 1,
        _ => 0,
    }
}

/// Whether the last byte of a text is a line end.
pub(crate) fn ends_line(text: &[u8]) -> bool
    ensures { result ≡ ends_line text.now }
{
    let len = text.len();
    if len == 0 {
        return false;
    }
    text[len - 1] == b'\n'
}

impl Reader {
    pub fn new(alloc: Global) -> Self
        ensures { state_of result ≡ start }
    {
        Self {
            mode: Mode::First,
            bytes: Vec::new(alloc),
            blanks: Vec::new(alloc),
        }
    }

    /// The blanks are bytes too.
    fn keep_blanks(&mut self) -> Result<(), NoMemory>
        ensures { OnOk result (state_of self.new ≡ kept (state_of self.old)) }
    {
        let kept = self.bytes.extend_from_slice(&self.blanks);
        self.blanks.clear();
        self.mode = Mode::Text;
        kept
    }

    fn put(&mut self, byte: u8) -> Result<(), NoMemory>
        ensures { OnOk result (state_of self.new ≡ put (byte ∷ []) (state_of self.old)) }
    {
        self.keep_blanks()?;
        self.bytes.extend_from_slice(&[byte])
    }

    fn next_line(&mut self)
        ensures { state_of self.new ≡ next_line (state_of self.old) }
    {
        self.blanks.clear();
        self.mode = if ends_line(&self.bytes) {
            Mode::Blank
        } else {
            Mode::Margin
        };
    }

    fn mark(&mut self) -> Result<(), NoMemory>
        ensures { OnOk result (state_of self.new ≡ mark_in self.old.mode (state_of self.old)) }
    {
        if matches!(self.mode, Mode::Text) {
            return self.put(b'!');
        }
        self.mode = Mode::Mark;
        Ok(())
    }

    fn blank(&mut self, byte: u8) -> Result<(), NoMemory>
        ensures { OnOk result (state_of self.new ≡ blank_in self.old.mode (state_of self.old) byte) }
    {
        if matches!(self.mode, Mode::First | Mode::Margin) {
            self.mode = Mode::Margin;
            return Ok(());
        }
        self.mode = Mode::Blank;
        self.blanks.extend_from_slice(&[byte])
    }

    fn plain(&mut self, byte: u8) -> Result<(), NoMemory>
        ensures { OnOk result (state_of self.new ≡ plain (state_of self.old) byte) }
    {
        match byte {
            b'\n' => {
                self.next_line();
                Ok(())
            }
            b'^' => {
                self.mode = Mode::Caret;
                Ok(())
            }
            b'!' => self.mark(),
            b' ' | b'\t' | b'\r' => self.blank(byte),
            b'$' => self.put(27),
            _ => self.put(byte),
        }
    }

    /// A byte after another one, with which it begins a comment if it is an exclamation mark.
    fn after_mark(&mut self, mark: u8, byte: u8) -> Result<(), NoMemory>
        ensures { OnOk result (state_of self.new ≡ begins_comment mark (state_of self.old) byte) }
    {
        if byte == b'!' {
            self.mode = Mode::Comment;
            return Ok(());
        }
        self.put(mark)?;
        self.plain(byte)
    }

    fn marked(&mut self, byte: u8) -> Result<(), NoMemory>
        ensures { OnOk result (state_of self.new ≡ put_marked (marked byte) (state_of self.old)) }
    {
        match after_caret(byte) {
            Marked::Byte(byte) => self.put(byte),
            Marked::Nothing => self.keep_blanks(),
            Marked::Wrong => {
                self.mode = Mode::Wrong;
                Ok(())
            }
        }
    }

    /// One byte more.
    #[tactic(auto, unfolding(crate::specs::Source::step))]
    pub fn step(&mut self, byte: u8) -> Result<(), NoMemory>
        ensures { OnOk result (state_of self.new ≡ step (state_of self.old) byte) }
    {
        match self.mode {
            Mode::First => {
                if byte == b'#' {
                    self.mode = Mode::Hash;
                    return Ok(());
                }
                self.plain(byte)
            }
            Mode::Margin | Mode::Blank | Mode::Text => self.plain(byte),
            Mode::Hash => self.after_mark(b'#', byte),
            Mode::Mark => self.after_mark(b'!', byte),
            Mode::Caret => self.marked(byte),
            Mode::Comment => {
                if byte == b'\n' {
                    self.next_line();
                }
                Ok(())
            }
            Mode::Wrong => Ok(()),
        }
    }

    /// How many bytes have been read, with the blanks and the mark that wait.
    pub fn bytes_begun(&self) -> usize
        ensures { result ≡ bytes_begun (state_of self.now) }
    {
        self.bytes.len() + (self.blanks.len() + waiting(self.mode))
    }

    fn is_wrong(&self) -> bool
        ensures { result ≡ is_wrong self.now.mode }
    {
        matches!(self.mode, Mode::Wrong)
    }

    /// The bytes that were read, at the end of a source of so many bytes.
    fn finish(mut self, at: usize) -> Result<Vec<u8>, ReaderFault>
        ensures { IsReadAs (ended (state_of self) at) result }
    {
        let waits = match self.mode {
            Mode::Caret | Mode::Wrong => return Err(ReaderFault::Caret(at.saturating_sub(1))),
            Mode::Hash => b'#',
            Mode::Mark => b'!',
            _ => return Ok(self.bytes),
        };
        self.put(waits)?;
        Ok(self.bytes)
    }
}

/// The bytes that a source stands for.
///
/// If a caret stands before what it cannot stand before, the fault tells the place of the first such caret: the source is read up
/// to there, and no further.
pub fn commands(alloc: Global, source: &[u8]) -> Result<Vec<u8>, ReaderFault>
    ensures reads { IsReadAs (commands_of source.now) result }
{
    let mut reader = Reader::new(alloc);
    for (at, byte) in source.iter().enumerate() {
        reader.step(*byte)?;
        if reader.is_wrong() {
            return Err(ReaderFault::Caret(at.saturating_sub(1)));
        }
    }
    reader.finish(source.len())
}
