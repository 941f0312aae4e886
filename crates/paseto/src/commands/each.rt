//! The command `check --each`: a token on each line of an input.

ghost use Rattle.std.specs.Prelude.{◌≡◌, ◌<◌, ◌&&◌, ◌⊎◌, [], IfErr, IfOk, IsTrue, OnOk, Some, false, length, string_bytes, true};
ghost use Rattle.std.specs.Io.BufRead.{drop_through};
ghost use Rattle.serde_json.specs.Data.{member, no_members, object};
ghost use Rattle.serde_json.specs.View.{view};
ghost use Rattle.paseto_tasks.specs.Error.{Fails, IsMemory, IsOutside, message_of, nothing};
ghost use Rattle.paseto.specs.Check.{demanded};
ghost use Rattle.paseto.specs.Checked.{IsJsonLine};
ghost use Rattle.paseto.specs.Each.{AdmitsLine, ChecksAll, IsReady, IsTokenRow, IsUnready, RefusesLine, Stops, StopsRow, WritesRow, WritesRows, first_line, is_ended};
ghost use Rattle.paseto.specs.Gives.{Gives};

use crate::commands::check::{Demands, Keys, admitted_by, json_line};
use paseto_tasks::{ProgramError, TokenError, takes, write_whole};
use rusty_paseto_paserk::{PaserkError, PaserkType};
use serde_json::{Map, Value};
use std::alloc::{AllocError, Global};
use std::io::{Read, Write};
use std::str;

/// The number of bytes that a read of the input requests.
const SPACE: usize = 65536;

/// What checks the token of each line of an input.
#[derive(Clone, Copy)]
pub struct LineChecker<'c, 'w> {
    pub alloc: Global,
    pub keys: &'c Keys,
    pub demands: &'c Demands<'w>,
    /// The number of bytes that a line may have.
    pub longest: usize,
}

/// The row of a line.
#[derive(Drop)]
struct Row {
    text: String,
    is_admitted: bool,
}

impl LineChecker<'_, '_> {
    /// Writes a row for each line, and returns whether all tokens were admitted.
    ///
    /// The errors, before which the rows of the lines in front are written: `TooLong` of a line that is longer than it may
    /// be, and of which no more is read, and of an input whose length has more than 64 bits; `InputOrOutput` if a read
    /// or a write fails, and `Memory` if an allocation does.
    pub fn check<R: Read, W: Write>(
        &self,
        input: &mut R,
        output: &mut W,
    ) -> Result<bool, ProgramError>
        ensures all { IfOk result (ChecksAll (IsTokenRow self.now.keys.now (demanded self.now.demands.now))
            self.now.longest (R.remaining input.old) (W.contents output.old) (W.contents output.new)) }
        ensures stops { IfErr result (Stops (IsTokenRow self.now.keys.now (demanded self.now.demands.now))
            self.now.longest (R.remaining input.old) (W.contents output.old) (W.contents output.new)) }
    {
        let mut pending = Vec::new(self.alloc);
        let mut space = [0u8; SPACE];
        let (mut all, mut total) = (true, 0usize);
        'reads: loop {
            let count = input.read(&mut space)?;
            if count == 0 {
                let are_admitted = self.write_rows(&mut pending, true, output)?;
                return Ok(both(all, are_admitted));
            }
            total = match total.checked_add(count) {
                Some(total) => total,
                None => return Err(ProgramError::Token(TokenError::TooLong)),
            };
            pending.extend_from_slice(&space[..count])?;
            let are_admitted = self.write_rows(&mut pending, false, output)?;
            all = both(all, are_admitted);
        }
    }

    /// Writes a row for each line in the bytes, and leaves in them the line that has not ended, unless they are the last ones.
    /// Returns whether all tokens were admitted.
    fn write_rows<W: Write>(
        &self,
        pending: &mut Vec<u8>,
        are_last: bool,
        output: &mut W,
    ) -> Result<bool, ProgramError>
        ensures written { IfOk result (λ all. WritesRows (IsTokenRow self.now.keys.now (demanded self.now.demands.now))
            self.now.longest are_last pending.old.items pending.new.items (W.contents output.old)
            (W.contents output.new) all) }
        ensures stops { IfErr result (Stops (IsTokenRow self.now.keys.now (demanded self.now.demands.now))
            self.now.longest (Some pending.old.items) (W.contents output.old) (W.contents output.new)) }
    {
        let mut rest = pending.as_slice();
        let mut all = true;
        'lines: while has_line(rest, are_last) {
            let (line, behind) = cut_line(rest);
            let is_admitted = self.write_row(line, output)?;
            all = both(all, is_admitted);
            rest = behind;
        }
        if rest.len() > self.longest {
            return Err(ProgramError::Token(TokenError::TooLong));
        }
        *pending = Vec::from_slice(self.alloc, rest)?;
        Ok(all)
    }

    /// Writes the row of a line, and returns whether its token was admitted.
    fn write_row<W: Write>(&self, line: &[u8], output: &mut W) -> Result<bool, ProgramError>
        ensures written { IfOk result (WritesRow (IsTokenRow self.now.keys.now (demanded self.now.demands.now))
            self.now.longest line.now (W.contents output.old) (W.contents output.new)) }
        ensures stops { IfErr result (StopsRow (IsTokenRow self.now.keys.now (demanded self.now.demands.now))
            self.now.longest line.now (W.contents output.old) (W.contents output.new)) }
    {
        if line.len() > self.longest {
            return Err(ProgramError::Token(TokenError::TooLong));
        }
        let row = self.row(line)?;
        write_whole(output, row.text.as_str().as_bytes())?;
        Ok(row.is_admitted)
    }

    /// The row of a line.
    fn row(&self, line: &[u8]) -> Result<Row, ProgramError>
        ensures row { IfOk result (λ row. IsTokenRow self.now.keys.now (demanded self.now.demands.now)
            line.now (string_bytes row.text) row.is_admitted) }
        ensures fails { IfErr result (Fails nothing) }
    {
        match self.claims(line) {
            Ok(claims) => Ok(Row {
                text: row_text(self.alloc, "claims", claims)?,
                is_admitted: true,
            }),
            Err(error) => {
                let message = refusal(self.alloc, error)?;
                let value = Value::try_from_str(self.alloc, message.as_str())?;
                Ok(Row {
                    text: row_text(self.alloc, "error", value)?,
                    is_admitted: false,
                })
            }
        }
    }

    /// The claims of the token that a line holds.
    fn claims(&self, line: &[u8]) -> Result<Value, ProgramError>
        ensures { Gives (λ claims. AdmitsLine self.now.keys.now (demanded self.now.demands.now)
            line.now (view claims)) (RefusesLine self.now.keys.now (demanded self.now.demands.now)
            line.now) (Fails nothing) result }
    {
        let text = str::from_utf8(line)?;
        admitted_by(self.alloc, self.keys, self.demands, text.trim())
    }
}

/// Refuses a key that reads no tokens, or whose version does not take the assertion, for all tokens at once.
pub fn ready(keys: &Keys, demands: &Demands<'_>) -> Result<(), ProgramError>
    ensures ready { OnOk result (IsReady keys.now (demanded demands.now).assertion) }
    ensures unready { IfErr result (IsUnready keys.now (demanded demands.now).assertion) }
{
    let Keys::One(key) = keys else {
        return Ok(());
    };
    let kind = key.kind();
    if kind == PaserkType::Secret {
        return Err(ProgramError::from(PaserkError::OtherType(kind)));
    }
    takes(key.version(), demands.assertion)
}

/// The message of a refusal. A failure of the system refuses nothing.
fn refusal(alloc: Global, error: ProgramError) -> Result<String, ProgramError>
    ensures refused { IfOk result (λ message. (string_bytes message ≡ message_of error) × ¬ IsOutside error) }
    ensures fails { IfErr result (λ fault. IsOutside fault × ((fault ≡ error) ⊎ IsMemory fault)) }
{
    match error {
        ProgramError::System(source) => Err(ProgramError::System(source)),
        ProgramError::Usage(_) | ProgramError::File(_) | ProgramError::Token(_) => {
            Ok(error.message(alloc)?)
        }
    }
}

/// The line of an object with one member, as JSON.
fn row_text(alloc: Global, name: &str, value: Value) -> Result<String, AllocError>
    ensures { IfOk result (λ line. IsJsonLine (object (member name.now (view value) no_members))
        (string_bytes line)) }
{
    let mut members = Map::new(alloc);
    serde_json::put(&mut members, alloc, name, value)?;
    json_line(alloc, &Value::Object(members))
}

/// Whether both are so.
fn both(one: bool, other: bool) -> bool
    ensures { result ≡ (one && other) }
{
    one && other
}

/// Whether a line stands in some bytes: one that has ended, or any where they are the last ones.
fn has_line(bytes: &[u8], are_last: bool) -> bool
    ensures line { IsTrue result → (0 < length bytes.now)
        × (is_ended bytes.now ≡ false → are_last ≡ true) }
    ensures none { result ≡ false → (is_ended bytes.now ≡ false)
        × (are_last ≡ true → bytes.now ≡ []) }
{
    if bytes.contains(&b'\n') {
        return true;
    }
    are_last && !bytes.is_empty()
}

/// The first line of some bytes, without its line feed, and what is behind that.
fn cut_line(bytes: &[u8]) -> (&[u8], &[u8])
    ensures line { result.0.now ≡ first_line bytes.now }
    ensures behind { result.1.now ≡ drop_through 10 bytes.now }
{
    let mut length = 0;
    'bytes: while length < bytes.len() {
        if bytes[length] == b'\n' {
            return (&bytes[..length], &bytes[length + 1..]);
        }
        length += 1;
    }
    (bytes, &bytes[length..])
}
