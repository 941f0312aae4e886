//! The texts of the statuses.

ghost use Rattle.std.specs.Prelude.{◌≡◌};
ghost use Rattle.paseto_calls.specs.Answer.{IsGiven};
ghost use Rattle.paseto_calls.specs.ErrorText.{status_text};

use paseto_calls::answer::give;
use paseto_calls::error_text::text_of;

/// The text of a status: one line, without a line end. The texts are the library's own, without the names of claims and
/// the times in them.
#[unsafe(no_mangle)]
pub extern "C" fn paseto_error_text(status: u8, room: &mut [u8], written: &mut usize) -> u8
    ensures { IsGiven (status_text status) room.old room.new written.new result }
{
    give(text_of(status).as_bytes(), room, written)
}
