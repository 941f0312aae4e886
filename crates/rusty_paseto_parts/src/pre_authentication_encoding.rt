//! Pre-authentication encoding.

ghost use Rattle.std.specs.Prelude.{◌≡◌, ◌≤◌, ◌^◌, ℕ, List, map, length, IfOk, IfErr, IsErr, OnOk};
ghost use Rattle.rusty_paseto_parts.specs.Error.{IsMemory};
ghost use Rattle.rusty_paseto_parts.specs.PreAuthenticationEncoding.{pae};

use crate::absorb::Absorb;
use crate::error::PasetoError;
use crate::lengths::add_lengths;
use std::alloc::{AllocError, Global};
use std::marker::Model;

/// An unambiguous encoding of a list of pieces as one list of bytes.
///
/// It is the number of pieces and then, for each piece, its length and its bytes. Numbers are written in eight bytes,
/// least significant first.
///
/// Source: PASETO specification, "Authentication Padding".
#[derive(Drop)]
pub struct PreAuthenticationEncoding {
    bytes: Vec<u8>,
}

impl Model for PreAuthenticationEncoding {
    ghost Value = { List ℕ };

    ghost view = { λ encoding. encoding.bytes.items };
}

impl PreAuthenticationEncoding {
    /// The encoding of these pieces, in their order. It fails only with `Memory`.
    pub fn parse(alloc: Global, pieces: &[&[u8]]) -> Result<Self, PasetoError>
        ensures ok { IfOk result (λ encoding. encoding
            ≡ pae (map (λ piece. piece.now) pieces.now)) }
        ensures err { IfErr result IsMemory }
    {
        let len = encoded_len(pieces)?;
        let mut bytes = Vec::with_capacity(alloc, len)?;
        absorb_pieces(pieces, &mut bytes)?;
        Ok(PreAuthenticationEncoding { bytes })
    }

    /// The bytes of the encoding.
    pub fn as_bytes(&self) -> &[u8]
        ensures { result.now ≡ self.now }
    {
        self.bytes.as_slice()
    }
}

/// Feeds the encoding of these pieces, in their order, to a sink, without copying the pieces. It fails if the sink
/// fails, which may then have absorbed part of the encoding.
///
/// Source: PASETO specification, "Authentication Padding".
pub fn absorb_pieces<A: Absorb>(pieces: &[&[u8]], absorber: &mut A) -> Result<(), A::Error>
    ensures { OnOk result (A.absorbed absorber.old
        (pae (map (λ piece. piece.now) pieces.now)) absorber.new) }
{
    absorber.absorb(&(pieces.len() as u64).to_le_bytes())?;
    'pieces: for piece in pieces {
        absorber.absorb(&(piece.len() as u64).to_le_bytes())?;
        absorber.absorb(*piece)?;
    }
    Ok(())
}

// How many bytes the encoding has. It fails exactly where no `usize` holds the number.
fn encoded_len(pieces: &[&[u8]]) -> Result<usize, AllocError>
    ensures ok { IfOk result (λ len. len ≡ length (pae (map (λ piece. piece.now) pieces.now))) }
    ensures err { IsErr result → 2 ^ 64 ≤ length (pae (map (λ piece. piece.now) pieces.now)) }
{
    let mut len = 8usize;
    'pieces: for piece in pieces {
        len = add_lengths(add_lengths(len, 8)?, piece.len())?;
    }
    Ok(len)
}
