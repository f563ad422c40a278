//! The outside of the program: files by their names, and standard output. What they hold is not told,
//! and any call may fail; each failure is counted.
ghost use Rattle.std.specs.IoError.{error_kind};
ghost use Rattle.std.specs.Prelude.{◌≡◌, ◌↔◌, ◌≤◌, [], None, Some, string_bytes};
ghost use Rattle.qos_io.specs.Fault.{HasRisen};

use crate::mover::Mover;
use crate::reader::PieceReader;
use crate::writer::{PieceWriter, Pieces};
use qos_io::{Failed, PutFault, Shelf, Sink, Source};
use std::alloc::AllocError;
use std::fs::{File, Metadata};
use std::io;
use std::io::ErrorKind;
use std::os::unix::fs::MetadataExt;
use std::rt::Files;
use std::sync::Wait;
use std::thread::Threads;

// A count of faults after one more. It stays at 2^64 - 1.
fn raised(faults: u64) -> u64
    ensures risen { HasRisen faults result }
    ensures never_falls { faults ≤ result }
{
    faults.saturating_add(1)
}

// What tells a file from all others of the system, whatever its names.
#[derive(Clone, Copy, PartialEq, Eq)]
struct Node {
    device: u64,
    inode: u64,
}

impl Node {
    fn of(metadata: &Metadata) -> Node {
        Node {
            device: metadata.dev(),
            inode: metadata.ino(),
        }
    }
}

/// The files of the system, by their names. A file that was opened for reading is not created anew, under any name.
#[derive(Drop)]
pub struct FileShelf<'a, R> {
    rt: &'a R,
    reader: Mover,
    writer: Mover,
    opened: Vec<Node>,
    faults: u64,
}

impl<'a, R: Threads + Wait + Copy + Send + AllocGlobal + 'static> FileShelf<'a, R> {
    /// The files that `rt` reaches; no fault is counted yet. It starts two threads, of which one reads and one writes.
    pub fn new(rt: &'a R) -> Result<FileShelf<'a, R>, AllocError> {
        let alloc = rt.alloc();
        Ok(FileShelf {
            rt,
            reader: Mover::new(rt, alloc)?,
            writer: Mover::new(rt, alloc)?,
            opened: Vec::new(alloc),
            faults: 0,
        })
    }
}

impl<'a, R: Files<File = File> + Wait + AllocGlobal> FileShelf<'a, R> {
    // Opens a file for reading, and keeps in mind which one it is.
    fn open(&mut self, name: &str) -> io::Result<FileSource<'a, R>>
        ensures faults { self.new.faults ≡ self.old.faults }
    {
        let file = File::open(self.rt, name)?;
        self.opened.push(Node::of(&file.metadata()?))?;
        let reader = PieceReader::new(self.rt, self.rt.alloc(), &self.reader, file)?;
        Ok(FileSource { reader, faults: 0 })
    }

    // Makes the file of a name, or empties it. One that was opened for reading stays as it is.
    fn create(&self, name: &str) -> io::Result<File> {
        let file = File::options()
            .write(true)
            .create(true)
            .open(self.rt, name)?;
        let metadata = file.metadata()?;
        if self.opened.contains(&Node::of(&metadata)) {
            return Err(io::Error::from(ErrorKind::ResourceBusy));
        }
        // A new file needs no truncation, after which ext4 would write it to the disk at its closing.
        if metadata.is_file() && metadata.len() != 0 {
            file.set_len(0)?;
        }
        Ok(file)
    }

    // What an opening answers for an error.
    fn fault(&mut self, error: io::Error) -> PutFault
        ensures memory { (result ≡ PutFault.NoMemory) ↔ (error_kind error ≡ ErrorKind.OutOfMemory) }
        ensures risen { result ≡ PutFault.Failed → HasRisen self.old.faults self.new.faults }
        ensures never_falls { self.old.faults ≤ self.new.faults }
    {
        if error.kind() == ErrorKind::OutOfMemory {
            return PutFault::NoMemory;
        }
        self.faults = raised(self.faults);
        PutFault::Failed
    }
}

impl<'a, R: Files<File = File> + Wait + Sync + AllocGlobal> Shelf for FileShelf<'a, R> {
    type In = FileSource<'a, R>;

    type Out = FileSink<'a, R>;

    ghost Tells = { λ _. ⊥ };

    ghost file = { λ _ _. None };

    ghost closed = { λ _. [] };

    ghost faults = { λ s. s.faults };

    ghost IsSureToRead = { λ _ _. ⊥ };

    ghost IsSureToWrite = { λ _ _. ⊥ };

    fn open_in(&mut self, name: &str) -> Result<FileSource<'a, R>, PutFault> {
        match self.open(name) {
            Ok(source) => Ok(source),
            Err(error) => Err(self.fault(error)),
        }
    }

    /// The memory that the sink needs is taken before the file is touched. What the system refuses is a failure.
    fn create_out(&mut self, name: &str) -> Result<FileSink<'a, R>, PutFault> {
        let alloc = self.rt.alloc();
        let pieces = Pieces::new(self.rt, alloc, &self.writer)?;
        let kept = String::from_str(alloc, name)?;
        let Ok(file) = self.create(name) else {
            self.faults = raised(self.faults);
            return Err(PutFault::Failed);
        };
        Ok(FileSink {
            writer: PieceWriter::new(pieces, file),
            name: kept,
            faults: 0,
        })
    }

    fn close_out(&mut self, out: FileSink<'a, R>) -> Result<(), PutFault> {
        if out.writer.finish() {
            return Ok(());
        }
        self.faults = raised(self.faults);
        Err(PutFault::Failed)
    }
}

/// A file that is read.
#[derive(Drop)]
pub struct FileSource<'a, R> {
    reader: PieceReader<'a, R>,
    faults: u64,
}

impl<'a, R: Wait> Source for FileSource<'a, R> {
    ghost remaining = { λ _. None };

    ghost faults = { λ s. s.faults };

    ghost IsSure = { λ _. ⊥ };

    #[inline(always)]
    fn read(&mut self, buf: &mut [u8]) -> Result<usize, Failed> {
        if let Some(n) = self.reader.read(buf) {
            return Ok(n);
        }
        self.faults = raised(self.faults);
        Err(Failed)
    }
}

/// A file that is written.
#[derive(Drop)]
pub struct FileSink<'a, R> {
    writer: PieceWriter<'a, R>,
    name: String,
    faults: u64,
}

impl<'a, R: Wait> Sink for FileSink<'a, R> {
    ghost contents = { λ _. None };

    ghost name = { λ s. Some (string_bytes s.name) };

    ghost faults = { λ s. s.faults };

    ghost IsSure = { λ _. ⊥ };

    #[inline(always)]
    fn put(&mut self, bytes: &[u8]) -> Result<(), PutFault> {
        if self.writer.put(bytes) {
            return Ok(());
        }
        self.faults = raised(self.faults);
        Err(PutFault::Failed)
    }
}

/// Standard output. Each put is written at once.
#[derive(Drop)]
pub struct StdoutSink<'a, R> {
    rt: &'a R,
    faults: u64,
}

impl<'a, R: Print> StdoutSink<'a, R> {
    /// The standard output of `rt`; no fault is counted yet.
    pub fn new(rt: &'a R) -> StdoutSink<'a, R> {
        StdoutSink { rt, faults: 0 }
    }
}

impl<'a, R: Print> Sink for StdoutSink<'a, R> {
    ghost contents = { λ _. None };

    ghost name = { λ _. None };

    ghost faults = { λ s. s.faults };

    ghost IsSure = { λ _. ⊥ };

    fn put(&mut self, bytes: &[u8]) -> Result<(), PutFault> {
        if self.rt.write_all(bytes).is_ok() {
            return Ok(());
        }
        self.faults = raised(self.faults);
        Err(PutFault::Failed)
    }
}
