//! Reading the whole input.

ghost use Rattle.std.specs.Prelude.{IfErr, IfOk, OnOk};
ghost use Rattle.std.specs.Io.KnownBytes.{IsAtEnd};
ghost use Rattle.paseto_streams.specs.Input.{IsInput, IsReadFault};

use crate::error::StreamError;
use std::alloc::Global;
use std::io::Read;

/// The number of bytes that the first read requests, and the most that a read requests. Each read
/// requests twice as many as the one before, so a long input takes few reads.
const SHORTEST: usize = 4096;

const LONGEST: usize = 65536;

/// Returns the bytes of the input, up to its end. The end is the first read that returns no bytes.
///
/// Every other read adds to the bytes that are kept, so this ends for every reader. A failed read
/// returns `InputOrOutput`, and a failed allocation returns `Memory`.
pub fn read_whole<R: Read>(alloc: Global, input: &mut R) -> Result<Vec<u8>, StreamError>
    ensures whole { IfOk result (λ bytes. IsInput (R.remaining input.old) bytes.items) }
    ensures ended { OnOk result (IsAtEnd (R.remaining input.new)) }
    ensures failed { IfErr result IsReadFault }
{
    let mut bytes = Vec::new(alloc);
    let mut space = [0u8; LONGEST];
    let mut asked = SHORTEST;
    'reads: loop {
        let count = input.read(&mut space[..asked])?;
        if count == 0 {
            return Ok(bytes);
        }
        bytes.extend_from_slice(&space[..count])?;
        asked = LONGEST.min(2 * asked);
    }
}
