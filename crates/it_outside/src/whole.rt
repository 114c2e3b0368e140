//! Reading a source to its end, and writing a piece whole.
ghost use Rattle.std.specs.Prelude.{◌≡◌, ◌≢◌, ◌≤◌, length, IfOk, IfErr, OnOk, OnErr, IsErrOf};
ghost use Rattle.it_outside.specs.Causes.{faults_after, next_count};
ghost use Rattle.it_outside.specs.Traffic.{Gains, Gave, GaveAtMost, GaveMore, TookPrefix};

use crate::ends::{Sink, Source};
use std::alloc::Global;

/// Why a source wasn't read to its end.
#[derive(Clone, Copy, Debug, PartialEq, Eq)]
pub enum InFault {
    /// A read failed.
    ReadFault,
    /// There were more bytes than the limit allows.
    TooLong,
    /// Allocation failed.
    Memory,
}

/// Why a piece wasn't written whole.
#[derive(Clone, Copy, Debug, PartialEq, Eq)]
pub enum OutFault {
    /// A write failed.
    WriteFault,
}

/// The number of bytes that `read_all` asks for at a time.
const CHUNK: usize = 4096;

/// All bytes that the source gives up to its end; `TooLong` if they are more than `limit`.
pub fn read_all<S: Source>(alloc: Global, source: &mut S, limit: usize) -> Result<Vec<u8>, InFault>
    ensures whole { IfOk result (λ bytes. Gave (S.left source.old) (S.left source.new) bytes.items) }
    ensures fits { IfOk result (λ bytes. length bytes.items ≤ limit) }
    ensures long { IsErrOf result InFault.TooLong → GaveMore (S.left source.old) (S.left source.new) limit }

    // One read failed if that is the result, and otherwise none did.
    ensures read { IsErrOf result InFault.ReadFault → S.faults source.new ≡ next_count (S.faults source.old) }
    ensures stayed { (IsErrOf result InFault.ReadFault → ⊥) → S.faults source.new ≡ S.faults source.old }

    // Bytes that were given before a failed read or a failed allocation are lost.
    ensures lost { IfErr result (λ fault. fault ≢ InFault.TooLong →
        GaveAtMost (S.left source.old) (S.left source.new) limit) }
{
    let mut bytes = Vec::new(alloc);
    let mut chunk = [0; CHUNK];
    loop {
        let Ok(count) = source.read(&mut chunk) else {
            return Err(InFault::ReadFault);
        };
        if count == 0 {
            return Ok(bytes);
        }
        if count > limit - bytes.len() {
            return Err(InFault::TooLong);
        }
        if bytes.extend_from_slice(&chunk[..count]).is_err() {
            return Err(InFault::Memory);
        }
    }
}

/// Writes the whole of `piece`, and allocates nothing itself. If it fails, the sink took a prefix of `piece`.
#[tactic(auto, using(crate::proofs::Moved::took_prefix))]
pub fn write_all<K: Sink>(sink: &mut K, piece: &[u8]) -> Result<(), OutFault>
    ensures whole { OnOk result (Gains (K.taken sink.old) (K.taken sink.new) piece.now) }
    ensures part { OnErr result (TookPrefix (K.taken sink.old) (K.taken sink.new) piece.now) }

    // One write failed if this function does, and otherwise none did.
    ensures counted { K.faults sink.new ≡ faults_after (K.faults sink.old) result }
{
    let mut at = 0;
    while at < piece.len() {
        let Ok(count) = sink.write(&piece[at..]) else {
            return Err(OutFault::WriteFault);
        };
        at += count;
    }
    Ok(())
}
