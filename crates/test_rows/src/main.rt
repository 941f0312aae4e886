//! Checks each row of the files of known answers, which other implementations made, and prints how
//! many rows of each call and each version agreed.
#![tactic(auto)]

mod error;
mod fields;
mod p384;
mod primitives;
mod published;
mod rows;
mod rsa;
mod schemes;
mod tally;
mod tokens;

use anyhow::{Context, Result, ensure};
use rows::Rows;
use std::rt::Files;
use std::{env, fs, io};
use tally::Tally;

/// `test_rows FOLDER`, where the folder has the files.
fn main(rt: HostRuntime) -> Result<()> {
    let folder = env::args(&rt)?.nth(1).context("usage: test_rows FOLDER")?;
    let primitives = check_file(&rt, folder.as_str(), Rows::Primitives)?;
    let local_tokens = check_file(&rt, folder.as_str(), Rows::LocalTokens)?;
    let schemes = check_file(&rt, folder.as_str(), Rows::Schemes)?;
    let sign_input = check_file(&rt, folder.as_str(), Rows::SignInput)?;
    let p384 = check_file(&rt, folder.as_str(), Rows::P384)?;
    let rsa = check_file(&rt, folder.as_str(), Rows::Rsa)?;
    let wycheproof = check_file(&rt, folder.as_str(), Rows::Wycheproof)?;
    let published = check_file(&rt, folder.as_str(), Rows::Published)?;
    ensure!(
        primitives
            && local_tokens
            && schemes
            && sign_input
            && p384
            && rsa
            && wycheproof
            && published,
        "not every row agrees"
    );
    Ok(())
}

/// Whether all rows of a file agree. Those that do are counted, and the others are printed by their
/// lines.
fn check_file<R: Files + AllocGlobal + Print>(rt: &R, folder: &str, rows: Rows) -> Result<bool> {
    let text = read_file(rt, folder, rows.file())?;
    let mut tally = Tally::new(rt.alloc());
    let all_agree = check_lines(rt, rows, text.as_str(), &mut tally)?;
    print_tally(rt, &tally, rows.agreement())?;
    Ok(all_agree)
}

fn read_file<R: Files + AllocGlobal>(rt: &R, folder: &str, file: &str) -> Result<String> {
    let path = format!(in rt.alloc(); "{folder}/{file}")?;
    fs::read_to_string(rt, path.as_str()).context(format_args!("reading {file}"))
}

/// Whether the rows of all lines agree. A line that begins with `#` is no row.
fn check_lines<'a, R: AllocGlobal + Print>(
    rt: &R,
    rows: Rows,
    text: &'a str,
    tally: &mut Tally<'a>,
) -> Result<bool> {
    let mut all_agree = true;
    'lines: for (index, line) in text.lines().enumerate() {
        if line.starts_with('#') {
            continue;
        }
        if let Err(error) = rows.check(rt.alloc(), line, tally) {
            all_agree = false;
            println!(rt; "{}, line {}: {error}", rows.file(), index + 1)?;
        }
    }
    Ok(all_agree)
}

fn print_tally(rt: &impl Print, tally: &Tally<'_>, agreement: &str) -> io::Result<()> {
    'names: for (name, count) in tally.counts() {
        println!(rt; "{name}: {count} {agreement}")?;
    }
    Ok(())
}
