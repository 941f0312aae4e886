//! New files: each has its name only when it is written whole, and takes no other file's place.

use crate::fault::Fault;
use crate::files::on_disk;
use paseto_tasks::{FileError, ProgramError, SystemError, write_whole};
use rand::rngs::SysRng;
use rand_core::TryRng;
use std::fs::{self, File};
use std::io;
use std::os::unix::fs::OpenOptionsExt;

/// The permissions of a file that holds a secret: its owner may read and write it.
const SECRET: u32 = 0o600;

/// The permissions of a file that everyone may read.
const PUBLIC: u32 = 0o644;

/// Refuses the name of a file that is there already. A command asks this before it makes anything;
/// the file that comes in between is not replaced either.
pub fn free<'a>(rt: &HostRuntime, path: Option<&'a str>) -> Result<(), Fault<'a>> {
    let Some(path) = path else {
        return Ok(());
    };
    match fs::symlink_metadata(rt, path) {
        Ok(_) => Err(Fault::about(path, ProgramError::File(FileError::FileExists))),
        Err(source) if source.kind() == io::ErrorKind::NotFound => Ok(()),
        Err(source) => Err(Fault::about(path, ProgramError::of_file(&source))),
    }
}

/// Writes bytes to a new file, with the permissions of the mode.
fn put_new<'a>(rt: &HostRuntime, path: &'a str, mode: u32, bytes: &[u8]) -> Result<(), Fault<'a>> {
    NewFile::written(rt, path, mode, bytes)?.name(rt)
}

/// Writes a private key to a new file or to standard output, and its public half to another new file.
/// If this fails, neither file is there.
pub fn put_pair<'a>(
    rt: &HostRuntime,
    out: Option<&'a str>,
    secret: &[u8],
    public: &'a str,
    half: &[u8],
) -> Result<(), Fault<'a>> {
    let half = NewFile::written(rt, public, PUBLIC, half)?;
    match put_secret(rt, out, secret) {
        Ok(()) => half.name_behind(rt, out),
        Err(fault) => {
            half.remove(rt);
            Err(fault)
        }
    }
}

/// Writes a secret to a new file, or to standard output.
pub fn put_secret<'a>(
    rt: &HostRuntime,
    out: Option<&'a str>,
    secret: &[u8],
) -> Result<(), Fault<'a>> {
    match out {
        Some(path) => put_new(rt, path, SECRET, secret),
        None => Ok(write_whole(&mut rt.stdout(), secret)?),
    }
}

/// Writes what everyone may read to a new file, or to standard output.
pub fn put_public<'a>(
    rt: &HostRuntime,
    out: Option<&'a str>,
    bytes: &[u8],
) -> Result<(), Fault<'a>> {
    match out {
        Some(path) => put_new(rt, path, PUBLIC, bytes),
        None => Ok(write_whole(&mut rt.stdout(), bytes)?),
    }
}

/// A file that is written whole, under a temporary name in the folder of its name.
#[derive(Drop)]
struct NewFile<'a> {
    path: &'a str,
    temporary: String,
}

impl<'a> NewFile<'a> {
    /// Writes the file and flushes it to the disk. If this fails, the file is removed.
    fn written(
        rt: &HostRuntime,
        path: &'a str,
        mode: u32,
        bytes: &[u8],
    ) -> Result<NewFile<'a>, Fault<'a>> {
        let new = NewFile {
            path,
            temporary: temporary_name(rt, path)?,
        };
        let file = match new.create(rt, mode) {
            Ok(file) => file,
            Err(source) => return Err(Fault::about(path, ProgramError::of_file(&source))),
        };
        match fill(file, bytes) {
            Ok(()) => Ok(new),
            Err(error) => {
                new.remove(rt);
                Err(Fault::about(path, error))
            }
        }
    }

    fn create(&self, rt: &HostRuntime, mode: u32) -> io::Result<File> {
        File::options()
            .write(true)
            .create_new(true)
            .mode(mode)
            .open(rt, self.temporary.as_str())
    }

    /// Gives the file its name, unless another file has it, and flushes its folder. The temporary name goes in any case.
    fn name(&self, rt: &HostRuntime) -> Result<(), Fault<'a>> {
        let named = fs::hard_link(rt, self.temporary.as_str(), self.path);
        self.remove(rt);
        if let Err(source) = named {
            return Err(Fault::about(self.path, ProgramError::of_link(&source)));
        }
        match flush_folder(rt, self.path) {
            Ok(()) => Ok(()),
            Err(_) => {
                remove(rt, self.path);
                Err(Fault::about(self.path, ProgramError::File(FileError::Unwritten)))
            }
        }
    }

    /// Gives the file its name, and removes another new file if that fails.
    fn name_behind(&self, rt: &HostRuntime, other: Option<&'a str>) -> Result<(), Fault<'a>> {
        let named = self.name(rt);
        if let (Err(_), Some(other)) = (&named, other) {
            remove(rt, other);
        }
        named
    }

    /// Removes the temporary name.
    fn remove(&self, rt: &HostRuntime) {
        remove(rt, self.temporary.as_str());
    }
}

/// Writes a whole file and flushes it to the disk.
fn fill(file: File, bytes: &[u8]) -> Result<(), ProgramError> {
    let mut file = on_disk(Ok(file))?;
    let written = write_whole(&mut file, bytes);
    if written.is_err() || file.sync_all().is_err() {
        return Err(ProgramError::File(FileError::Unwritten));
    }
    Ok(())
}

/// Flushes the folder of a path to the disk, so that the names in it are kept. One that may not be read cannot be flushed.
fn flush_folder(rt: &HostRuntime, path: &str) -> io::Result<()> {
    let folder = match folder_of(path) {
        "" => ".",
        folder => folder,
    };
    match File::open(rt, folder) {
        Ok(folder) => folder.sync_all(),
        Err(source) if source.kind() == io::ErrorKind::PermissionDenied => Ok(()),
        Err(source) => Err(source),
    }
}

/// Removes a file that this program made, and says on standard error if it stays.
fn remove(rt: &HostRuntime, path: &str) {
    if fs::remove_file(rt, path).is_err() {
        Fault::about(path, ProgramError::File(FileError::FileLeft)).report(rt);
    }
}

/// A name that no other file has, in the folder of a path. Key rings pass over such names.
fn temporary_name(rt: &HostRuntime, path: &str) -> Result<String, ProgramError> {
    let Ok(number) = SysRng::new(rt).try_next_u64() else {
        return Err(ProgramError::System(SystemError::Random));
    };
    let folder = folder_of(path);
    Ok(format!(in rt.alloc(); "{folder}.paseto-{number:016x}.new")?)
}

/// The folder of a path, with the slash at its end; nothing for a name without a slash.
fn folder_of(path: &str) -> &str {
    match path.rfind('/') {
        Some(slash) => &path[..=slash],
        None => "",
    }
}
