//! A file that keeps a text whole, also if a write is cut off.
ghost use Rattle.std.specs.Prelude.{◌≡◌, IfOk, OnOk};
ghost use Rattle.std.specs.Io.KnownBytes.{Appends};

use std::alloc::{AllocError, Global};
use std::fs::{File, Files, OpenFile, OpenOptions, TryLockError};
use std::io;
use std::io::{Read, Write};
use std::marker::Model;
use std::path::{Path, PathBuf};

/// A file that this program alone reads and writes. In its folder are its lock, and during a write the new text.
#[derive(Drop)]
pub struct KeptFile {
    path: PathBuf,
    /// A write puts the new text into the file of this name, and then renames it over the kept file.
    fresh: String,
    folder: PathBuf,
    /// The program holds it as long as it runs. The system releases it if the program is killed.
    lock: File,
}

/// A text that a kept file has: it was read from there, or written there. Only [`KeptFile`] makes one. Contracts see its bytes.
#[derive(Drop)]
pub struct FiledText {
    text: Vec<u8>,
}

impl Model for FiledText {
    ghost use Rattle.std.specs.Prelude.{ℕ, List};

    ghost Value = { List ℕ };

    ghost view = { λ filed. filed.text.items };
}

impl FiledText {
    pub fn as_slice(&self) -> &[u8]
        ensures { result.now ≡ self.now }
    {
        self.text.as_slice()
    }
}

/// Why the program does not open a file.
#[derive(Drop)]
pub enum KeptFileFault {
    /// Another program has it.
    Taken,
    Io(io::Error),
}

impl From<io::Error> for KeptFileFault {
    fn from(error: io::Error) -> KeptFileFault {
        KeptFileFault::Io(error)
    }
}

impl From<AllocError> for KeptFileFault {
    fn from(error: AllocError) -> KeptFileFault {
        KeptFileFault::Io(error.into())
    }
}

impl KeptFile {
    /// Opens the file of this name, which has to exist and to be writable, and gives its text. If the name is a link, the file that
    /// it leads to is opened.
    pub fn open<R: Files<File = File>>(
        rt: &R,
        alloc: Global,
        name: &str,
    ) -> Result<(KeptFile, FiledText), KeptFileFault> {
        let path = rt.canonicalize(alloc, name)?;
        let lock = lock_beside(rt, alloc, &path)?;
        let text = read_text(rt, alloc, &path)?;
        let fresh = beside(alloc, &path, "new")?;
        let folder = folder_of(alloc, &path)?;
        let kept = KeptFile {
            path,
            fresh,
            folder,
            lock,
        };
        Ok((kept, FiledText { text }))
    }

    /// Replaces the file's text by this one, and keeps the file's mode. Whenever this is cut off, the file has one of the two texts,
    /// whole. The new text is written to a second file, and is on the disk before a rename gives it the file's name. On return the
    /// rename is on the disk too.
    pub fn save<R: Files<File = File>>(&self, rt: &R, text: Vec<u8>) -> io::Result<FiledText>
        ensures { IfOk result (λ filed. filed ≡ text.items) }
    {
        self.write_fresh(rt, text.as_slice())?;
        rt.rename(self.fresh.as_str(), self.path.as_str())?;
        File::open(rt, self.folder.as_str())?.sync_all()?;
        Ok(FiledText { text })
    }

    // Writes the new text to the second file.
    fn write_fresh<R: Files<File = File>>(&self, rt: &R, text: &[u8]) -> io::Result<()> {
        let mode = rt.metadata(self.path.as_str())?.permissions();
        let mut fresh = File::create(rt, self.fresh.as_str())?;
        fresh.set_permissions(mode)?;
        write_synced(&mut fresh, text)
    }
}

// Takes the lock of a file, if no other program has it.
fn lock_beside<R: Files<File = File>>(
    rt: &R,
    alloc: Global,
    path: &PathBuf,
) -> Result<File, KeptFileFault> {
    let name = beside(alloc, path, "lock")?;
    let lock = File::create(rt, name.as_str())?;
    match lock.try_lock() {
        Ok(()) => Ok(lock),
        Err(TryLockError::WouldBlock) => Err(KeptFileFault::Taken),
        Err(TryLockError::Error(error)) => Err(KeptFileFault::Io(error)),
    }
}

// Reads the text of a file, which also has to be writable.
fn read_text<R: Files<File = File>>(rt: &R, alloc: Global, path: &PathBuf) -> io::Result<Vec<u8>> {
    let mut file = OpenOptions::new()
        .read(true)
        .write(true)
        .open(rt, path.as_str())?;
    let mut text = Vec::new(alloc);
    file.read_to_end(&mut text)?;
    Ok(text)
}

// The file's name with a dot and a word after it.
fn beside(alloc: Global, path: &PathBuf, word: &str) -> Result<String, AllocError> {
    let name = path.as_str();
    format!(in alloc; "{name}.{word}")
}

fn folder_of(alloc: Global, path: &PathBuf) -> io::Result<PathBuf> {
    let folder = path.parent().unwrap_or(Path::new("/"));
    Ok(PathBuf::from_str(alloc, folder.as_os_str())?)
}

/// Writes all of a text, and syncs it to the disk.
fn write_synced<F: Write + OpenFile>(file: &mut F, text: &[u8]) -> io::Result<()>
    ensures { OnOk result (Appends (F.contents file.old) (F.contents file.new) text.now) }
{
    file.write_all(text)?;
    file.sync_all()
}
