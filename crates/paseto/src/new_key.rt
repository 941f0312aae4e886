//! The command `keygen`.

ghost use Rattle.std.specs.Prelude.{◌≡◌, ◌≢◌, ◌⊎◌, ℕ, List, Bool, Err, IfErr, IfOk, Ok, OnOk, Some, option_map, string_bytes};
ghost use Rattle.paseto_keys.specs.AnyKey.{parts_of};
ghost use Rattle.paseto_keys.specs.declared.any_key.AnyKey.{AnyKey as Generated};
ghost use Rattle.paseto_tasks.specs.Keygen.{IsGenerated};
ghost use Rattle.paseto_words.specs.Action.{text};
ghost use Rattle.paseto.specs.NewKey.{IsHalfText, IsKindFault, IsKindFor, IsNoHalfText, IsNotSecret, IsSecretText};

use crate::fault::Fault;
use crate::forms::{format_of, formed, locked};
use crate::half::half_of;
use crate::keys::password_of;
use crate::new_file::{free, put_pair, put_secret};
use paseto_keys::AnyKey;
use paseto_tasks::keygen::keygen;
use paseto_tasks::{Format, Kind, ProgramError, UsageError, write_whole};
use paseto_words::Keygen;
use rand::rngs::SysRng;
use rand_core::TryRng;
use std::alloc::Global;

/// Writes a new key, under a password if one is named, to standard output or to a new file, and its
/// public half to another new file. No file is overwritten; if this fails, neither file is there.
pub fn make<'a>(rt: &HostRuntime, words: &Keygen<'a>) -> Result<u8, Fault<'a>> {
    let kind = kind_of(words)?;
    let format = format_of(words.format)?;
    differ(words.out, words.public)?;
    free(rt, words.out)?;
    free(rt, words.public)?;
    let password = match words.password {
        Some(path) => Some(password_of(rt, path)?),
        None => None,
    };
    let password = password.as_deref();
    let (alloc, generator) = (rt.alloc(), &mut SysRng::new(rt));
    // Without a file for it, the public half is shown with the report.
    let asks_half = words.public.is_some() || (kind.is_pair() && !words.quiet);
    let made = new_texts(
        alloc, words.kind, kind, format, password, asks_half, generator,
    )?;
    let report = report_of(alloc, words, kind, password.is_some(), &made.public)?;
    write(rt, words, &made)?;
    tell(rt, words, report.as_str());
    Ok(0)
}

/// Refuses two names that are one.
fn differ(out: Option<&str>, public: Option<&str>) -> Result<(), ProgramError>
    ensures differ { OnOk result ((path : List ℕ) → text out.entry ≡ Some path
        → text public.entry ≢ Some path) }
    ensures same { IfErr result (λ error. (error ≡ ProgramError.Usage UsageError.SameFile) × (path : List ℕ)
        × (text out.entry ≡ Some path) × (text public.entry ≡ Some path)) }
{
    match (out, public) {
        (Some(out), Some(public)) if out == public => Err(ProgramError::Usage(
            UsageError::SameFile,
        )),
        _ => Ok(()),
    }
}

/// Writes the texts to the files that are named, and what has none to standard output.
fn write<'a>(rt: &HostRuntime, words: &Keygen<'a>, made: &NewTexts) -> Result<(), Fault<'a>> {
    let secret = made.secret.as_str().as_bytes();
    match (words.public, &made.public) {
        (Some(path), Some(half)) => put_pair(rt, words.out, secret, path, half.as_str().as_bytes()),
        _ => put_secret(rt, words.out, secret),
    }
}

/// The kind that the arguments name. If a file for the public half is named, keys of that kind must
/// have one.
fn kind_of<'a>(words: &Keygen<'a>) -> Result<Kind, Fault<'a>>
    ensures found { IfOk result (IsKindFor words.now.kind.now
        (option_map (λ path. path.now) words.now.public)) }
    ensures none { IfErr result (λ fault. (fault.about.now ≡ words.now.kind.now)
        × IsKindFault words.now.kind.now (option_map (λ path. path.now) words.now.public)
        fault.error) }
{
    match Kind::parse(words.kind) {
        Some(kind) if words.public.is_none() || kind.is_pair() => Ok(kind),
        Some(_) => Err(Fault::about(words.kind, ProgramError::Usage(UsageError::NoHalf))),
        None => Err(Fault::about(words.kind, ProgramError::Usage(UsageError::NoKind))),
    }
}

/// The texts of a new key, each with its line feed.
#[derive(Drop)]
struct NewTexts {
    secret: String,
    public: Option<String>,
}

/// The text of a new key of a kind, in a format or under a password, and that of its public half if it
/// is asked for.
fn new_texts<'a, G: TryRng>(
    alloc: Global,
    name: &'a str,
    kind: Kind,
    format: Format,
    password: Option<&[u8]>,
    asks_half: bool,
    generator: &mut G,
) -> Result<NewTexts, Fault<'a>>
    ensures made { IfOk result (λ made. (key : Generated) × (between : G)
        × IsGenerated kind (λ drawn. G.may_fill generator.old drawn between) G.Error
        (between ≡ generator.old) (Ok key)
        × IsSecretText format (option_map (λ bytes. bytes.now) password.entry)
        (λ drawn. G.may_fill between drawn generator.new) (parts_of key) (string_bytes made.secret)
        × IsHalfText asks_half format (parts_of key) (option_map string_bytes made.public)) }
    ensures refused { IfErr result (λ fault. ((between : G)
        × IsGenerated kind (λ drawn. G.may_fill generator.old drawn between) G.Error
        (between ≡ generator.old) (Err fault.error))
        ⊎ ((key : Generated)
        × (IsNotSecret name.now format (option_map (λ bytes. bytes.now) password.entry) G.Error
        (parts_of key) fault ⊎ IsNoHalfText name.now format (parts_of key) fault))) }
{
    let key = keygen(alloc, kind, generator)?;
    let secret = secret_text(alloc, name, &key, format, password, generator)?;
    let public = half_text(alloc, name, &key, format, asks_half)?;
    Ok(NewTexts { secret, public })
}

/// The text of the public half of a key in a format, if it is asked for.
fn half_text<'a>(
    alloc: Global,
    name: &'a str,
    key: &AnyKey,
    format: Format,
    is_asked: bool,
) -> Result<Option<String>, Fault<'a>>
    ensures made { IfOk result (λ half. IsHalfText is_asked format (parts_of key.now)
        (option_map string_bytes half)) }
    ensures refused { IfErr result (IsNoHalfText name.now format (parts_of key.now)) }
{
    if !is_asked {
        return Ok(None);
    }
    match half_of(alloc, name, key, format) {
        Ok(half) => Ok(Some(half)),
        Err(fault) => Err(fault),
    }
}

/// The text of a new key: under the password if there is one, and otherwise in the format. Under a
/// password it is not written in PEM.
fn secret_text<'a, G: TryRng>(
    alloc: Global,
    name: &'a str,
    key: &AnyKey,
    format: Format,
    password: Option<&[u8]>,
    generator: &mut G,
) -> Result<String, Fault<'a>>
    ensures made { IfOk result (λ text. IsSecretText format
        (option_map (λ bytes. bytes.now) password.entry)
        (λ drawn. G.may_fill generator.old drawn generator.new) (parts_of key.now)
        (string_bytes text)) }
    ensures refused { IfErr result (IsNotSecret name.now format
        (option_map (λ bytes. bytes.now) password.entry) G.Error (parts_of key.now)) }
{
    match (password, format) {
        (Some(_), Format::Pem) => Err(Fault::from(ProgramError::Usage(UsageError::LockedPem))),
        (Some(password), Format::Paserk) => locked(alloc, name, key, password, generator),
        (None, format) => formed(alloc, name, key, format),
    }
}

/// The lines on the files of what is made, and the public half if it has no file.
fn report_of(
    alloc: Global,
    words: &Keygen<'_>,
    kind: Kind,
    is_locked: bool,
    half: &Option<String>,
) -> Result<String, ProgramError> {
    let mut report = String::new(alloc);
    if let Some(path) = words.out {
        let what = if kind.is_pair() {
            "private half of a new key"
        } else {
            "new key"
        };
        let how = if is_locked { ", under a password" } else { "" };
        let kind = words.kind;
        let line = format!(in alloc; "paseto: {path}: the {what} of kind {kind}{how}\n")?;
        report.push_str(line.as_str())?;
    }
    if let Some(path) = words.public {
        let line = format!(in alloc; "paseto: {path}: its public half\n")?;
        report.push_str(line.as_str())?;
    } else if let Some(half) = half {
        report.push_str("paseto: the public half:\n")?;
        report.push_str(half.as_str())?;
    }
    Ok(report)
}

/// Reports on standard error which files were made. What is made stays made if this fails.
fn tell(rt: &HostRuntime, words: &Keygen<'_>, report: &str) {
    if !words.quiet {
        drop(write_whole(&mut rt.stderr(), report.as_bytes()));
    }
}
