//! A run over the cases.

use anyhow::{Context, Error, Result, ensure};
use std::alloc::Global;
use std::fmt::Debug;
use std::io::{Stdout, Write};

/// A table of calls that change nothing: each case's name, in which `{}` is the text behind the run, and call.
macro_rules! calls {
    ($run:expr; $($lines:tt)*) => { $crate::run::calls! { $run, ""; $($lines)* } };
    ($run:expr, $of:expr; $($case:literal => $asked:expr;)*) => {
        $run.calls(concat!($($case, "\n"),*), $of, |round, _| {
            $(if round.begins() {
                round.ends($asked);
            } else)* {}
            Ok(())
        })
    };
}

/// A table of methods that edit an object: the path of its type, its name in the lines, and how one is made.
/// What a method is given is made before the edit.
macro_rules! edits {
    (
        $run:expr, $of:expr, $path:literal, $object:ident = $made:expr;
        $($case:literal $(, $value:ident = $given:expr)? => $edit:expr;)*
    ) => {
        $run.table(concat!($($path, $case, "\n"),*), $of, || $made, true, |round, $object| {
            $(if round.is_next() {
                $(let $value = $given;)?
                round.begin();
                round.ends($edit);
            } else)* {}
            Ok(())
        })
    };
    ($run:expr, $($table:tt)*) => { $crate::run::edits! { $run, "", $($table)* } };
}

pub(crate) use calls;
pub(crate) use edits;

/// What has a snapshot: a text that is the same for two objects that answer alike.
pub trait Snapshot: Drop {
    fn snapshot(&self, alloc: Global) -> Result<String>;
}

/// What a call answered, as `Debug` shows it.
pub fn shown<A: Debug + Drop>(alloc: Global, answer: A) -> Result<String> {
    Ok(format!(in alloc; "{answer:?}")?)
}

/// What is called of nothing, and so changes nothing.
impl Snapshot for () {
    fn snapshot(&self, alloc: Global) -> Result<String> {
        Ok(String::new(alloc))
    }
}

impl Snapshot for String {
    fn snapshot(&self, _alloc: Global) -> Result<String> {
        Ok(self.clone()?)
    }
}

/// Where an object may be put.
impl<T: Snapshot> Snapshot for Option<T> {
    fn snapshot(&self, alloc: Global) -> Result<String> {
        match self {
            Some(object) => Ok(format!(in alloc; "some {}", object.snapshot(alloc)?)?),
            None => Ok(String::new(alloc)),
        }
    }
}

/// Puts what was made where there was nothing.
pub fn put<T: Drop, E>(slot: &mut Option<T>, made: Result<T, E>) -> Result<(), E> {
    *slot = Some(made?);
    Ok(())
}

/// Asks about an object, and drops it by a call: where a scope ends with a key of any version, each of its exits takes
/// long to prove.
pub fn with<O: Drop, F>(object: O, ask: F) -> Result<()>
where
    F: FnOnce(&O) -> Result<()>,
    requires { F.IsAlwaysCallable ask }
{
    let asked = ask(&object);
    drop(object);
    asked
}

/// A time that one line of a table is asked.
#[derive(Drop)]
pub struct Round {
    alloc: Global,
    /// How many lines come before the one that is asked.
    before: usize,
    /// Where `memory: begin` and `memory: end` are written around the call, each in one piece. Memory may be
    /// refused between the two.
    marks: Option<Stdout>,
    /// What the call answered, as `Debug` shows it, unless something else failed.
    answer: Result<Option<String>>,
}

impl Round {
    /// Whether the next line is the one that is asked.
    pub fn is_next(&mut self) -> bool {
        let is_next = self.before == 0;
        self.before = self.before.wrapping_sub(1);
        is_next
    }

    /// Marks that the call begins.
    pub fn begin(&mut self) {
        if let Err(error) = self.mark("memory: begin\n") {
            self.answer = Err(error);
        }
    }

    /// Whether the next line is the one that is asked, whose call then begins.
    pub fn begins(&mut self) -> bool {
        let is_next = self.is_next();
        if is_next {
            self.begin();
        }
        is_next
    }

    /// Takes what the call answered.
    pub fn ends<T: Debug + Drop, E: Debug + Drop>(&mut self, answer: Result<T, E>) {
        if self.answer.is_ok() {
            self.answer = self.told(answer);
        }
    }

    fn told<A: Debug + Drop>(&mut self, answer: A) -> Result<Option<String>> {
        self.mark("memory: end\n")?;
        Ok(Some(shown(self.alloc, answer)?))
    }

    fn mark(&mut self, mark: &str) -> Result<()> {
        if let Some(output) = &mut self.marks {
            output.write_all(mark.as_bytes())?;
        }
        Ok(())
    }
}

/// The answers that tell of refused memory: an error `Memory` with no other error in it, or one with no variants.
const MEMORY: &[&str] = &["Err(Memory(AllocError))", "Err(AllocError)"];

/// An object before an edit, what the edit answered, and the object then.
#[derive(Drop, PartialEq, Eq)]
struct Change {
    before: String,
    answer: String,
    after: String,
}

fn is_memory(change: &Change) -> bool {
    MEMORY.contains(&change.answer.as_str())
}

/// Fails unless what is right is what a name tells of: a refusal for another cause than memory, or a value.
/// An edit that does not refuse changes something, and nothing else does.
fn check_name(name: &str, right: &Change, is_edit: bool) -> Result<()> {
    let is_refused = right.answer.as_str().starts_with("Err(");
    let is_named = is_refused == name.ends_with(", refused") && !is_memory(right);
    let is_right = is_named && (is_refused || !is_edit) == (right.before == right.after);
    ensure!(is_right, "{name}: its name tells of another answer");
    Ok(())
}

/// A run over all cases, or over one of them with marks around the call.
#[derive(Drop)]
pub struct Run<'a> {
    /// The allocator of all calls.
    pub alloc: Global,
    /// The text that the calls are about.
    pub text: &'a str,
    /// Where the answers are told.
    pub output: Stdout,
    /// The name of the one case.
    pub asked: Option<&'a str>,
    /// Where its marks are written.
    pub marks: Option<Stdout>,
    /// Whether a case had the name that was asked for.
    pub found: bool,
}

impl Run<'_> {
    /// Asks the lines of a table of calls.
    pub fn calls<F>(&mut self, cases: &str, of: &str, lines: F) -> Result<()>
    where
        F: Copy + FnOnce(&mut Round, &mut ()) -> Result<()>,
        requires { F.IsAlwaysCallable lines }
    {
        self.table(cases, of, || Ok(()), false, lines)
    }

    /// Makes two alike objects for each line of a table, and asks the second between the marks. What is right is
    /// what the first answers before the edit and after it. Where memory was refused, the second is to answer as
    /// before, and is asked again. Else it is to answer as the first, and a third is made and asked.
    pub fn table<O: Snapshot, M, F>(
        &mut self,
        cases: &str,
        of: &str,
        make: M,
        is_edit: bool,
        lines: F,
    ) -> Result<()>
    where
        M: Copy + FnOnce() -> Result<O>,
        F: Copy + FnOnce(&mut Round, &mut O) -> Result<()>,
        requires made { M.IsAlwaysCallable make }
        requires asked { F.IsAlwaysCallable lines }
    {
        'cases: for (line, case) in cases.lines().enumerate() {
            let name = case.replace(self.alloc, "{}", of)?;
            if self.asked.unwrap_or(name.as_str()) == name.as_str() {
                self.found = true;
                let right = self.change(line, None, &mut make()?, lines)?;
                check_name(name.as_str(), &right, is_edit)?;
                let mut object = make()?;
                let met = self.change(line, self.marks, &mut object, lines)?;
                if !is_memory(&met) {
                    object = make()?;
                }
                let then = self.change(line, None, &mut object, lines)?;
                self.report(name.as_str(), &right, &met, &then)?;
            }
        }
        Ok(())
    }

    // Asks a line of an object, with marks or without.
    fn change<O: Snapshot, F>(
        &self,
        line: usize,
        marks: Option<Stdout>,
        object: &mut O,
        lines: F,
    ) -> Result<Change>
    where
        F: Copy + FnOnce(&mut Round, &mut O) -> Result<()>,
        requires { F.IsAlwaysCallable lines }
    {
        let before = object.snapshot(self.alloc)?;
        let mut round = Round {
            alloc: self.alloc,
            before: line,
            marks,
            answer: Ok(None),
        };
        lines(&mut round, object)?;
        Ok(Change {
            before,
            answer: round.answer?.context("no line was asked")?,
            after: object.snapshot(self.alloc)?,
        })
    }

    // Tells what was met, and whether it was right then.
    fn report(&mut self, name: &str, right: &Change, met: &Change, then: &Change) -> Result<()> {
        let word = match met.answer == right.answer {
            _ if is_memory(met) => "memory",
            true => "right",
            false => "wrong",
        };
        let is_right = then == right && (is_memory(met) || met.after == right.after);
        let then = if is_right { "right" } else { "wrong" };
        writeln!(self.output, "{name}: {word}, then {then}")?;
        Ok(())
    }
}
