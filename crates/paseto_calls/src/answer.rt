//! How results are returned to C.

ghost use Rattle.std.specs.Prelude.{◌≡◌, ◌≤◌, ◌++◌, drop, length};
ghost use Rattle.paseto_calls.specs.Answer.{IsCut, IsGiven};
ghost use Rattle.paseto_calls.specs.ErrorText.{status_text};
ghost use Rattle.paseto_calls.specs.Fault.{IsHandedTelling, IsTold};
ghost use Rattle.paseto_calls.specs.Refusal.{status_of};
ghost use Rattle.paseto_calls.specs.Request.{IsKeyHanded};

use crate::error_text::text_of;
use crate::fault::{Fault, line_of};
use crate::held_key::HeldKey;
use crate::refusal::Refusal;
use std::alloc::Global;

/// The status of a text that is in the buffer.
pub const OK: u8 = 0;

/// The status of a buffer that is too short for a text.
pub const ROOM: u8 = 1;

/// Writes the result into the buffer, and its length into `written`, and returns the status; an error message goes into a
/// buffer of its own.
pub fn hand_over_telling(
    alloc: Global,
    made: Result<String, Fault>,
    room: &mut [u8],
    written: &mut usize,
    line: &mut [u8],
    told: &mut usize,
) -> u8
    ensures { IsHandedTelling made room.old room.new written.new result
        line.old line.new told.new }
{
    match made {
        Ok(text) => {
            *told = 0;
            give(text.as_bytes(), room, written)
        }
        Err(fault) => {
            *written = 0;
            tell(alloc, &fault, line, told)
        }
    }
}

/// Writes a key into C's struct, and returns the status; why there is none goes into a buffer.
pub fn hand_over_held(
    made: Result<HeldKey, Refusal>,
    key: &mut HeldKey,
    line: &mut [u8],
    told: &mut usize,
) -> u8
    ensures { IsKeyHanded made key.old key.new result line.old line.new told.new }
{
    match made {
        Ok(held) => {
            *key = held;
            *told = 0;
            OK
        }
        Err(refusal) => tell_status(refusal, line, told),
    }
}

/// Writes the message of an error into its buffer, and returns the status of the error.
fn tell(alloc: Global, fault: &Fault, room: &mut [u8], told: &mut usize) -> u8
    ensures { IsTold fault.now result room.old room.new told.new }
{
    match fault {
        Fault::Refused(refusal) => tell_status(*refusal, room, told),
        Fault::Unparsed(error) => match line_of(alloc, error) {
            Ok(line) => {
                cut(line.as_bytes(), room, told);
                fault.refusal().status()
            }
            Err(refused) => tell_status(Refusal::from(refused), room, told),
        },
    }
}

/// Writes the text of a status into a buffer, and returns the status.
fn tell_status(refusal: Refusal, room: &mut [u8], told: &mut usize) -> u8
    ensures status { result ≡ status_of refusal }
    ensures line { IsCut (status_text (status_of refusal)) room.old room.new told.new }
{
    let status = refusal.status();
    cut(text_of(status).as_bytes(), room, told);
    status
}

/// Writes a line at the beginning of a buffer, or as much of it as fits.
fn cut(line: &[u8], room: &mut [u8], told: &mut usize)
    ensures { IsCut line.now room.old room.new told.new }
{
    *told = line.len();
    let length = room.len();
    if length < line.len() {
        room.copy_from_slice(&line[..length]);
        return;
    }
    lay(line, room);
}

/// Writes a text into the buffer, if it fits.
pub fn give(text: &[u8], room: &mut [u8], written: &mut usize) -> u8
    ensures { IsGiven text.now room.old room.new written.new result }
{
    let length = text.len();
    *written = length;
    if room.len() < length {
        return ROOM;
    }
    lay(text, room);
    OK
}

/// Writes bytes at the beginning of the buffer.
pub(crate) fn lay(bytes: &[u8], room: &mut [u8])
    requires { length bytes.now ≤ length room.old }
    ensures { room.new ≡ bytes.now ++ drop (length bytes.now) room.old }
{
    room[..bytes.len()].copy_from_slice(bytes);
}
