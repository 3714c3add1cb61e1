//! Writes of whole pieces.
ghost use Rattle.std.specs.Prelude.{◌<◌, IfOk, OnOk, OnErr, length};
ghost use Rattle.std.specs.Io.{WritesAtMost};
ghost use Rattle.std.specs.Io.KnownBytes.{Appends, WriteAppends};
ghost use Rattle.vr_base.specs.Causes.{HasCause};
ghost use Rattle.vr_edge.specs.Told.{AppendsFront};

use crate::{Sink, WriteFailed};

/// One write of a piece that isn't empty. An `Ok` took some of it: a write that takes nothing has failed.
fn write_some<K: Sink>(sink: &mut K, piece: &[u8]) -> Result<usize, WriteFailed>
    requires { 0 < length piece.now }
    ensures bound { WritesAtMost result piece.now }
    ensures some { IfOk result (λ count. 0 < count) }
    ensures bytes { WriteAppends (K.taken sink.old) (K.taken sink.new) result piece.now }
    ensures cause { HasCause (K.faults sink.old) (K.faults sink.new) result }
{
    match sink.write(piece) {
        Ok(0) => Err(WriteFailed),
        Ok(count) => Ok(count),
        Err(failed) => Err(failed),
    }
}

/// Writes all of the bytes. After an `Err` the sink has taken a front of them.
pub fn write_whole<K: Sink>(sink: &mut K, bytes: &[u8]) -> Result<(), WriteFailed>
    ensures ok { OnOk result (Appends (K.taken sink.old) (K.taken sink.new) bytes.now) }
    ensures err { OnErr result (AppendsFront (K.taken sink.old) (K.taken sink.new) bytes.now) }
    ensures cause { HasCause (K.faults sink.old) (K.faults sink.new) result }
{
    let mut at = 0usize;
    while at < bytes.len() {
        at += write_some(sink, &bytes[at..])?;
    }
    Ok(())
}
