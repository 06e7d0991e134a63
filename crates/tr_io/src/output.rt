//! Writes whole pieces to a sink, and has it flush them.
ghost use Rattle.std.specs.Prelude.{◌≡◌, ◌≤◌, OnOk, OnErr};
ghost use Rattle.tr_io.specs.Faults.{Rose};
ghost use Rattle.tr_io.specs.Output.{IsWritten, IsPartWritten};

use crate::sink::{Sink, WriteAnswer};

/// A sink failed, and its count of faults rose.
#[derive(Clone, Copy)]
pub struct WriteFault;

/// Writes all of a piece, as the sink takes it. Where the sink fails, the front of the piece is
/// written.
pub fn write_all<K: Sink>(piece: &[u8], sink: &mut K) -> Result<(), WriteFault>
    ensures ok { OnOk result (IsWritten (K.written sink.old) piece.now (K.written sink.new)) }
    ensures err { OnErr result (IsPartWritten (K.written sink.old) piece.now (K.written sink.new)) }
    ensures counted { K.faults sink.old ≤ K.faults sink.new }
    ensures cause { OnErr result (Rose (K.faults sink.old) (K.faults sink.new)) }
{
    let mut rest_bytes = piece;
    while !rest_bytes.is_empty() {
        match sink.write(rest_bytes) {
            WriteAnswer::Took(count) => rest_bytes = &rest_bytes[count..],
            WriteAnswer::Failed => return Err(WriteFault),
        }
    }
    Ok(())
}

/// Has the sink flush all that it took. Where it fails, what was flushed isn't told.
pub fn flush<K: Sink>(sink: &mut K) -> Result<(), WriteFault>
    ensures written { K.written sink.new ≡ K.written sink.old }
    ensures flushed { OnOk result (K.flushed sink.new ≡ K.written sink.new) }
    ensures counted { K.faults sink.old ≤ K.faults sink.new }
    ensures cause { OnErr result (Rose (K.faults sink.old) (K.faults sink.new)) }
{
    match sink.flush() {
        WriteAnswer::Took(_) => Ok(()),
        WriteAnswer::Failed => Err(WriteFault),
    }
}
