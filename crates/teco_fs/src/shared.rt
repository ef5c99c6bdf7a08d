//! A file that is read, and stays open after that.
ghost use Rattle.std.specs.Io.{ReadsAtMost};

use std::alloc::Global;
use std::fs::{File, Metadata, OpenFile};
use std::io;
use std::io::Read;
use std::rc::Rc;

/// A file that can be read by each who holds it. All share its position.
pub trait ReadShared {
    /// Reads on into the front of the piece, and says how many bytes it read.
    fn read_shared(&self, piece: &mut [u8]) -> io::Result<usize>
        ensures bound { ReadsAtMost result piece.new };
}

impl ReadShared for File {
    fn read_shared(&self, piece: &mut [u8]) -> io::Result<usize> {
        let mut file = self;
        file.read(piece)
    }
}

/// A file that was opened once, and is closed when the last of those that hold it lets it go.
#[derive(Drop)]
pub struct SharedFile<F: Drop> {
    file: Rc<F>,
}

impl<F: Drop> SharedFile<F> {
    pub fn new(alloc: Global, file: F) -> io::Result<SharedFile<F>> {
        let file = Rc::new(alloc, file)?;
        Ok(SharedFile { file })
    }

    /// The same file, for one more to hold.
    pub fn another(&self) -> io::Result<SharedFile<F>> {
        let file = self.file.clone()?;
        Ok(SharedFile { file })
    }
}

impl<F: OpenFile + Drop> SharedFile<F> {
    /// What is known of the file now, whatever its name is.
    pub fn metadata(&self) -> io::Result<Metadata> {
        self.file.as_ref().metadata()
    }
}

impl<F: ReadShared + Drop> Read for SharedFile<F> {
    fn read(&mut self, piece: &mut [u8]) -> io::Result<usize> {
        self.file.as_ref().read_shared(piece)
    }
}
