// All that a source has left, and the whole of a text into a sink.
ghost use Rattle.std.specs.Prelude.{◌≡◌, ◌+◌, ◌-◌, ◌^◌, ◌<◌, ◌≤◌, true, false, IfOk, IsErrOf, OnOk, OnErr, length, vec_len};
ghost use Rattle.std.specs.Io.KnownBytes.{IsAtEnd};
ghost use Rattle.mwt_base.specs.Causes.{Rose};
ghost use Rattle.mwt_base.specs.Told.{Grows, GrowsByPrefix, KeepsTaken, ReadToEnd, TakesFront, TookMore};
ghost use Rattle.mwt_base.specs.declared.whole.ReadStop.TheVariants.{ReadFault, NoMemory};

use crate::{Bytes, Failed, Sink, Source};
use std::alloc::{AllocError, Global};
use thiserror::Error;

const PIECE: usize = 65_536;

/// Why a source was not read to its end: a read failed, more than the limit came, or memory ran out.
#[derive(Clone, Copy, Debug, PartialEq, Eq, Error)]
pub enum ReadStop {
    #[error("a read failed")]
    ReadFault,
    #[error("more bytes came than the limit")]
    TooLong,
    #[error("out of memory")]
    NoMemory,
}

impl From<Failed> for ReadStop {
    ghost from_gives = { λ _ e. e ≡ ReadFault };

    fn from(_: Failed) -> Self {
        ReadStop::ReadFault
    }
}

impl From<AllocError> for ReadStop {
    ghost from_gives = { λ _ e. e ≡ NoMemory };

    fn from(_: AllocError) -> Self {
        ReadStop::NoMemory
    }
}

/// Reads a source to its end, at most `limit` bytes, in pieces of up to 65,536 bytes.
///
/// `ReadFault` comes only where a read failed in this call, `TooLong` only where more than `limit`
/// bytes were taken. Whatever the answer, what was taken is the front of what was left.
pub fn read_whole<S: Source>(alloc: Global, source: &mut S, limit: usize) -> Result<Bytes, ReadStop>
    requires { limit < 2 ^ 32 }

    ensures taken { TakesFront (S.left source.old) (S.left source.new) }
    ensures whole { IfOk result (ReadToEnd (S.left source.old) (S.left source.new)) }
    ensures within { IfOk result (λ bytes. length bytes ≤ limit) }
    ensures fault { IsErrOf result ReadStop.ReadFault → Rose (S.faults source.old) (S.faults source.new) }
    ensures too_long { IsErrOf result ReadStop.TooLong → TookMore limit (S.left source.old) (S.left source.new) }
    ensures later { S.faults source.old ≤ S.faults source.new }
    ensures reads { S.reads source.new ≤ S.reads source.old + (limit + 2) }
{
    let mut bytes = Vec::new(alloc);
    let mut piece = zeros(alloc, PIECE)?;
    'pieces: for _turn in 0..limit + 2 {
        let more = take_piece(source, &mut piece, &mut bytes, limit)?;
        if !more {
            return Ok(Bytes::of(bytes));
        }
    }
    unreachable!()
}

// A length as a parameter: a list of so many zeros would be written out in every goal.
fn zeros(alloc: Global, len: usize) -> Result<Vec<u8>, AllocError>
    ensures { IfOk result (λ piece. vec_len piece ≡ len) }
{
    vec![in alloc; 0u8; len]
}

// One read, whose bytes go after those that are kept. It answers whether there may be more.
fn take_piece<S: Source>(
    source: &mut S,
    piece: &mut [u8],
    bytes: &mut Vec<u8>,
    limit: usize,
) -> Result<bool, ReadStop>
    requires room { 0 < length piece.old }
    requires within { vec_len bytes.old ≤ limit }

    ensures taken { TakesFront (S.left source.old) (S.left source.new) }
    ensures kept { OnOk result (KeepsTaken (S.left source.old) (S.left source.new) bytes.old.items bytes.new.items) }
    ensures within { OnOk result (vec_len bytes.new ≤ limit) }
    ensures more { result ≡ Ok true → vec_len bytes.old < vec_len bytes.new }
    ensures end { result ≡ Ok false → IsAtEnd (S.left source.new) }
    ensures fault { IsErrOf result ReadStop.ReadFault → Rose (S.faults source.old) (S.faults source.new) }
    ensures too_long { IsErrOf result ReadStop.TooLong →
        TookMore (limit - vec_len bytes.old) (S.left source.old) (S.left source.new) }
    ensures later { S.faults source.old ≤ S.faults source.new }
    ensures counted { S.reads source.new ≤ S.reads source.old + 1 }
{
    let count = source.read(piece)?;
    if count > limit - bytes.len() {
        return Err(ReadStop::TooLong);
    }
    bytes.extend_from_slice(&piece[..count])?;
    Ok(count > 0)
}

/// Writes all of `bytes`, in order. It takes no memory.
///
/// `Failed` comes only where a write failed in this call; a prefix of `bytes` was written then.
pub fn write_whole<K: Sink>(sink: &mut K, bytes: &[u8]) -> Result<(), Failed>
    ensures ok { OnOk result (Grows (K.written sink.old) (K.written sink.new) bytes.now) }
    ensures part { OnErr result (GrowsByPrefix (K.written sink.old) (K.written sink.new) bytes.now) }
    ensures fault { OnErr result (Rose (K.faults sink.old) (K.faults sink.new)) }
    ensures later { K.faults sink.old ≤ K.faults sink.new }
{
    let mut rest = bytes;
    while !rest.is_empty() {
        let count = sink.write(rest)?;
        rest = &rest[count..];
    }
    Ok(())
}
