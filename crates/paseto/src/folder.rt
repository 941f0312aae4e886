//! Key rings: the key files of a folder.

ghost use Rattle.std.specs.Prelude.{◌≡◌, ◌⊎◌, ℕ, List, IfErr, IfOk, MatchBool, MatchOption};
ghost use Rattle.paseto_keys.specs.AnyKey.{parts_of};
ghost use Rattle.paseto.specs.Folder.{AreNotPrivate, EndsIn, HoldsNoRingKey, IsHeldKey, IsKeyName, IsLastPrivate, entry_of};

use crate::commands::answers::one_line_of;
use crate::fault::Fault;
use crate::files::on_disk;
use crate::keys::Held;
use paseto_keys::AnyKey;
use paseto_tasks::{Names, ProgramError, SystemError, read_key_line};
use rusty_paseto_paserk::PaserkType;
use std::alloc::{AllocError, Global};
use std::fs::{self, File};
use std::io;

/// The key files of a folder.
#[derive(Drop)]
pub struct Folder {
    /// The keys of those that can be used, in the order of the files' names.
    pub keys: Vec<AnyKey>,
    /// The first by name that cannot be used.
    pub broken: Option<Broken>,
}

/// A key file of a folder that cannot be used.
#[derive(Drop)]
pub struct Broken {
    path: String,
    error: ProgramError,
}

impl Broken {
    /// Why it cannot be used, for the line on standard error.
    pub fn report(&self, rt: &HostRuntime) -> u8 {
        let path = self.path.as_str();
        let names = Names {
            key: path,
            input: path,
        };
        self.error.say(&names, &mut rt.stderr());
        self.error.status()
    }
}

/// What a file of a folder is to a ring.
#[derive(Drop)]
enum Entry {
    /// A key.
    Key(AnyKey),
    /// A key file that cannot be used.
    Broken(ProgramError),
    /// None of the ring's.
    Other,
}

/// Reads the key files of a folder, opened if they are locked. Names that begin with a dot are left
/// out; other names than those of key files, and what is no file, are passed over with one warning.
pub fn folder_of<'a>(
    rt: &HostRuntime,
    path: &'a str,
    held: &Held<'a>,
) -> Result<Folder, Fault<'a>> {
    match read(rt, path, held) {
        Ok(folder) => Ok(folder),
        Err(error) => Err(Fault::about(path, error)),
    }
}

fn read(rt: &HostRuntime, folder: &str, held: &Held<'_>) -> Result<Folder, ProgramError> {
    let alloc = rt.alloc();
    let names = names_in(rt, folder)?;
    let (mut keys, mut broken, mut passed) = (Vec::new(alloc), None, Passed::none());
    for name in &names {
        let path = format!(in alloc; "{folder}/{name}")?;
        match entry_in(rt, name.as_str(), path.as_str(), held)? {
            Entry::Key(key) => keys.push(key)?,
            Entry::Broken(error) if broken.is_none() => broken = Some(Broken { path, error }),
            Entry::Broken(_) => {}
            Entry::Other => passed.add(name.as_str()),
        }
    }
    passed.warn(rt, folder)?;
    Ok(Folder { keys, broken })
}

/// The names of the entries of a folder, in order, without those that begin with a dot and those that
/// are no text.
fn names_in(rt: &HostRuntime, folder: &str) -> Result<Vec<String>, ProgramError> {
    let mut names = Vec::new(rt.alloc());
    let entries = match fs::read_dir(rt, folder) {
        Ok(entries) => entries,
        Err(source) => return Err(ProgramError::of_file(&source)),
    };
    for entry in entries {
        match entry {
            Ok(entry) if entry.file_name().starts_with('.') => {}
            Ok(entry) => names.push(String::from_str(rt.alloc(), entry.file_name())?)?,
            Err(source) if source.kind() == io::ErrorKind::InvalidFilename => {}
            Err(source) => return Err(ProgramError::from(source)),
        }
    }
    names.sort()?;
    Ok(names)
}

/// What the file of a name is to a ring.
fn entry_in(
    rt: &HostRuntime,
    name: &str,
    path: &str,
    held: &Held<'_>,
) -> Result<Entry, AllocError> {
    if !is_key_name(name) {
        return Ok(Entry::Other);
    }
    match fs::metadata(rt, path) {
        Ok(metadata) if !metadata.is_file() => Ok(Entry::Other),
        Ok(_) => sorted(key_of_file(rt, path, held)),
        Err(source) => sorted(Err(ProgramError::of_file(&source))),
    }
}

/// Whether a file of this name is a key file: it has no extension, or one of `.key` and `.pem`.
fn is_key_name(name: &str) -> bool
    ensures { MatchBool result (IsKeyName name.now) (¬ IsKeyName name.now) }
{
    if ends_in(name, ".key") {
        return true;
    }
    if ends_in(name, ".pem") {
        return true;
    }
    match name.split_once('.') {
        Some(_) => false,
        None => true,
    }
}

/// Whether a name has an ending.
fn ends_in(name: &str, ending: &str) -> bool
    ensures { MatchBool result (EndsIn ending.now name.now) (¬ EndsIn ending.now name.now) }
{
    match name.strip_suffix(ending) {
        Some(_) => true,
        None => false,
    }
}

/// What a key file is to a ring, by the result of reading it. A failed allocation is one of reading it.
fn sorted(read: Result<AnyKey, ProgramError>) -> Result<Entry, AllocError>
    ensures { result ≡ entry_of read }
{
    match read {
        Ok(key) => Ok(Entry::Key(key)),
        Err(ProgramError::System(SystemError::Memory(source))) => Err(source),
        Err(error) => Ok(Entry::Broken(error)),
    }
}

/// The key of a key file.
fn key_of_file(rt: &HostRuntime, path: &str, held: &Held<'_>) -> Result<AnyKey, ProgramError> {
    let mut file = on_disk(File::open(rt, path))?;
    let text = read_key_line(rt.alloc(), &mut file)?;
    key_of_text(rt.alloc(), held, text.as_str())
}

/// The key in the text of a key file, opened if it is locked. A failed allocation is one of opening the text or of reading
/// its line.
fn key_of_text(alloc: Global, held: &Held<'_>, text: &str) -> Result<AnyKey, ProgramError>
    ensures found { IfOk result (λ key. IsHeldKey held.now text.now (parts_of key)) }
    ensures refused { IfErr result (HoldsNoRingKey held.now text.now) }
{
    match held.open(alloc, "", text) {
        Ok(key) => Ok(key),
        Err(fault) => Err(fault.into_error()),
    }
}

/// The last private key of these.
pub fn last_private(keys: &[AnyKey]) -> Option<&AnyKey>
    ensures { MatchOption result (AreNotPrivate keys.now) (λ key. IsLastPrivate keys.now key.now) }
{
    let [rest @ .., key] = keys else {
        return None;
    };
    if key.kind() == PaserkType::Secret {
        Some(key)
    } else {
        last_private(rest)
    }
}

/// What a ring passes over: the first name, and how many more.
#[derive(Drop)]
struct Passed<'n> {
    first: Option<&'n str>,
    more: usize,
}

impl<'n> Passed<'n> {
    fn none() -> Passed<'n> {
        Passed {
            first: None,
            more: 0,
        }
    }

    fn add(&mut self, name: &'n str) {
        if self.first.is_none() {
            self.first = Some(name);
        } else {
            self.more = self.more.saturating_add(1);
        }
    }

    /// Warns of it, if there is any.
    fn warn(&self, rt: &HostRuntime, folder: &str) -> Result<(), ProgramError> {
        let Some(first) = self.first else {
            return Ok(());
        };
        let alloc = rt.alloc();
        let more = match self.more {
            0 => String::new(alloc),
            more => format!(in alloc; " and {more} more")?,
        };
        let line = one_line_of(
            alloc,
            format!(in alloc;
                "paseto: {folder}: warning: {first}{more} passed over: key files are named *.key, *.pem or without a dot"
            ),
        )?;
        rt.eprintln(&line)?;
        Ok(())
    }
}
