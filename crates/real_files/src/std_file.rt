// A file of the system.
ghost use Rattle.std.specs.Prelude.{◌≡◌, pos, ◌≤ℤ◌, [], IfOk};
ghost use Rattle.std.specs.Fd.{file_raw_fd};
ghost use Rattle.real_files.specs.Found.{found_by};
ghost use Rattle.real_files.specs.Opened.{use_number};

use crate::RawFile;
use crate::file_trace::FileTrace;
use crate::identity::is_apart;
use crate::noted_calls::{noted_read, noted_sync, noted_write};
use outside::Failed;
use std::alloc::Global;
use std::fs::{File, OpenOptions};
use std::io;
use std::os::fd::AsRawFd;
use std::rt::Files;

/// A longer file is none that can be kept in memory.
const MOST_BYTES: u64 = 1 << 26;

/// What a file is opened for (docs/OPERATION.md).
#[derive(Clone, Copy)]
pub enum FileUse {
    /// To be looked at, also by others at the same time: it is opened to read, and locked together with these.
    Look,
    /// To be changed, by this process alone.
    Change,
    /// The same, and to be made where there is none.
    Make,
}

impl FileUse {
    fn makes(self) -> bool {
        matches!(self, FileUse::Make)
    }

    fn looks(self) -> bool {
        matches!(self, FileUse::Look)
    }

    // The number that stands for it in a note.
    pub(crate) fn number(self) -> u64
        ensures { result ≡ use_number self }
    {
        match self {
            FileUse::Look => 0,
            FileUse::Change => 1,
            FileUse::Make => 2,
        }
    }
}

// A file that is open and locked. Its place isn't one of the standard streams'.
#[derive(Drop)]
struct Store {
    file: File,
    folder: Option<File>,
    ghost behind: { pos 3 ≤ℤ file_raw_fd file },
}

#[derive(Drop)]
enum Place {
    Open(Store),
    // It is made when it is first written or synced.
    ToBeMade,
}

/// A file of the system, which is open and locked, or will be made when it is first written. Each of its calls is noted.
#[derive(Drop)]
pub struct StdFile<R: Files<File = File> + AllocGlobal> {
    rt: R,
    path: String,
    place: Place,
    found: FileTrace,
    trace: FileTrace,
}

impl<R: Files<File = File> + AllocGlobal + Drop> StdFile<R> {
    /// The file at this path, and its bytes. It is opened and locked, what was written into it is put on the disk, and then it is
    /// read. Where there is none, and it is to be made, that comes with its first write. One that is looked at alone is read, and no more
    /// locked.
    ///
    /// # Errors
    ///
    /// Where it can't be opened, locked, synced or read; where it is too long; where it has another name by then; where standard output or
    /// error writes into it; and, as [`io::ErrorKind::OutOfMemory`], where there is no memory for its bytes.
    pub fn open(rt: R, path: String, wanted: FileUse) -> io::Result<(StdFile<R>, Vec<u8>)>
        ensures { IfOk result (λ opened. (⟦<StdFile<R> as RawFile>⟧.first opened.0 ≡ opened.1.items) × (⟦<StdFile<R> as RawFile>⟧.deeds opened.0 ≡ [])) }
    {
        let alloc = rt.alloc();
        let mut found = FileTrace::new();
        let (place, bytes) = match open_store(&rt, path.as_str(), wanted, false) {
            Ok(store) => {
                store.settle()?;
                let bytes = read_whole(alloc, &store.file, &mut found)?;
                if wanted.looks() {
                    store.file.unlock()?;
                }
                (Place::Open(store), bytes)
            }
            Err(error) if wanted.makes() && error.kind() == io::ErrorKind::NotFound => {
                (Place::ToBeMade, Vec::new(alloc))
            }
            Err(error) => return Err(error),
        };
        let file = StdFile {
            rt,
            path,
            place,
            found,
            trace: FileTrace::new(),
        };
        Ok((file, bytes))
    }
}

// The file, which is made if it is to be.
fn made<'a, R: Files<File = File> + AllocGlobal>(
    rt: &R,
    path: &str,
    place: &'a mut Place,
) -> io::Result<&'a Store> {
    if matches!(place, Place::ToBeMade) {
        let store = open_store(rt, path, FileUse::Make, true)?;
        // Another may have made it meanwhile.
        if store.file.metadata()?.len() > 0 {
            return Err(io::Error::from(io::ErrorKind::AlreadyExists));
        }
        *place = Place::Open(store);
    }
    match place {
        Place::Open(store) => Ok(store),
        Place::ToBeMade => Err(io::Error::from(io::ErrorKind::NotFound)),
    }
}

// The same, with its name on the disk.
fn named<'a, R: Files<File = File> + AllocGlobal>(
    rt: &R,
    path: &str,
    place: &'a mut Place,
) -> io::Result<&'a Store> {
    let store = made(rt, path, place)?;
    store.sync_name()?;
    Ok(store)
}

impl Store {
    fn may_be_new(&self) -> bool {
        self.folder.is_some()
    }

    // Puts the name on the disk, where it may be new.
    fn sync_name(&self) -> io::Result<()> {
        match &self.folder {
            None => Ok(()),
            Some(folder) => folder.sync_all(),
        }
    }

    // Puts on the disk what was written.
    fn settle(&self) -> io::Result<()> {
        self.sync_name()?;
        if self.may_be_new() {
            self.file.sync_all()
        } else {
            self.file.sync_data()
        }
    }
}

// All bytes of a file.
fn read_whole(alloc: Global, file: &File, found: &mut FileTrace) -> io::Result<Vec<u8>>
    requires { found.old.deeds ≡ [] }
    ensures { IfOk result (λ bytes. found_by found.new.deeds ≡ bytes.items) }
{
    let length = file.metadata()?.len();
    if length > MOST_BYTES {
        return Err(io::Error::from(io::ErrorKind::FileTooLarge));
    }
    let mut bytes = Vec::from_elem(alloc, 0u8, length as usize)?;
    noted_read(file, found, &mut bytes)?;
    Ok(bytes)
}

// The file with its lock, and the folder of its name where it may be new. A pipe, which would be waited for, and a device are none, and a
// folder that can't be opened leaves no new file.
fn open_store<R: Files<File = File> + AllocGlobal>(
    rt: &R,
    path: &str,
    wanted: FileUse,
    is_new: bool,
) -> io::Result<Store> {
    if !is_new && !rt.metadata(path)?.is_file() {
        return Err(io::Error::from(io::ErrorKind::InvalidInput));
    }
    let is_link = wanted.makes() && is_link(rt, path)?;
    let mut folder = None;
    if wanted.makes() && !is_link {
        folder = Some(File::open(rt, folder_in(path))?);
    }
    let mut how = OpenOptions::new();
    how.read(true).write(!wanted.looks()).create(is_new);
    let file = behind_streams(rt.open_file(&how, path)?)?;
    if wanted.looks() {
        file.try_lock_shared()?;
    } else {
        file.try_lock()?;
    }
    // Another file may have got the name between the opening and the lock.
    if !is_apart(rt, &file, path)? {
        return Err(io::Error::from(io::ErrorKind::InvalidInput));
    }
    if wanted.makes() && is_link {
        folder = Some(folder_behind(rt, path)?);
    }
    Ok(Store { file, folder })
}

// Whether a link has this path, and not a file or nothing.
fn is_link<R: Files<File = File>>(rt: &R, path: &str) -> io::Result<bool> {
    match rt.symlink_metadata(path) {
        Ok(found) => Ok(found.is_symlink()),
        Err(error) if error.kind() == io::ErrorKind::NotFound => Ok(false),
        Err(error) => Err(error),
    }
}

// The same open file, in no place of a standard stream: what is put where that is closed would be written into it.
fn behind_streams(file: File) -> io::Result<File>
    ensures { IfOk result (λ file. pos 3 ≤ℤ file_raw_fd file) }
{
    if file.as_raw_fd() > 2 {
        return Ok(file);
    }
    let behind = file.try_clone()?;
    if behind.as_raw_fd() > 2 {
        Ok(behind)
    } else {
        Err(io::Error::from(io::ErrorKind::Unsupported))
    }
}

// The folder that a path names its file in.
fn folder_in(path: &str) -> &str {
    match path.rsplit_once('/') {
        None => ".",
        Some(("", _)) => "/",
        Some((folder, _)) => folder,
    }
}

// The folder in which the file of this path lies, behind all links.
fn folder_behind<R: Files<File = File> + AllocGlobal>(rt: &R, path: &str) -> io::Result<File> {
    let mut place = rt.canonicalize(rt.alloc(), path)?;
    place.pop();
    File::open(rt, place.as_str())
}

impl<R: Files<File = File> + AllocGlobal> RawFile for StdFile<R> {
    ghost first = { λ file. found_by file.found.deeds };

    ghost deeds = { λ file. file.trace.deeds };

    fn write_at(&mut self, at: u64, bytes: &[u8]) -> Result<(), Failed> {
        match made(&self.rt, self.path.as_str(), &mut self.place) {
            Ok(store) => noted_write(Some(&store.file), &mut self.trace, at, bytes),
            Err(_) => noted_write(None, &mut self.trace, at, bytes),
        }
    }

    fn sync(&mut self) -> Result<(), Failed> {
        match named(&self.rt, self.path.as_str(), &mut self.place) {
            Ok(store) => noted_sync(Some(&store.file), store.may_be_new(), &mut self.trace),
            Err(_) => noted_sync(None, false, &mut self.trace),
        }
    }
}
