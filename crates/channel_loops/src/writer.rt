//! A link's writer.
ghost use Rattle.std.specs.Prelude.{◌≡◌, ◌≤◌, ◌++◌, List};
ghost use Rattle.tr_io.specs.declared.step.Step.{Step};
ghost use Rattle.tr_io.specs.Faults.{Rose};
ghost use Rattle.channel_loops.specs.Writing.{IsWriterRun};

use crate::line::Line;
use crate::round::round;
use std::alloc::Global;
use tr_io::clock::Clock;
use tr_io::core_port::CorePort;
use tr_io::loop_end::LoopEnd;
use tr_io::names::ChanNo;
use tr_io::slot_out::SlotOut;

/// Writes what leaves on a channel to its session, until the channel ends or the relay has halted, and then
/// ends the session, in both directions.
///
/// Its steps are rounds: `halted` and, while that is false, `next_cell` at the clock's tick; where that gave
/// no cell, `live`, and, while that is true, a wait. The bytes that it writes are those of the cells, in order
/// (tor-spec, "Cell format").
///
/// It ends `Halted` at a `halted` that is true, `Ended` exactly where `live` is false, and `Spent` where no
/// step is left. Where the half fails, a front of the cell was written; the writer brings the channel down and
/// ends `WriteFault`. It ends `Memory` between two rounds, so no cell is lost by that: the room for a cell,
/// 65,542 bytes, is taken once.
pub fn write_session<K: SlotOut, P: CorePort, C: Clock>(
    alloc: Global,
    link: &mut K,
    session: u64,
    chan: ChanNo,
    port: &P,
    pass: &mut P::Pass,
    clock: &C,
) -> LoopEnd
    requires { P.is_own port.now pass.old }
    ensures own { P.is_own port.now pass.new }
    ensures spent { result ≡ LoopEnd.Spent → P.is_spent pass.new }
    ensures slot { K.slot link.new ≡ K.slot link.old }
    ensures rounds { (steps : List Step) × (P.mine pass.new ≡ P.mine pass.old ++ steps)
        × IsWriterRun chan session (K.written link.old) (K.written link.new) (K.faults link.old) (K.faults link.new) result steps }
    ensures counted { K.faults link.old ≤ K.faults link.new }
    ensures cause { result ≡ LoopEnd.WriteFault → Rose (K.faults link.old) (K.faults link.new) }
{
    let mut line = Line::new(alloc, session, chan);
    let end = write_rounds(&mut line, link, port, pass, clock);
    link.end(session);
    end
}

// The rounds of a writer.
fn write_rounds<K: SlotOut, P: CorePort, C: Clock>(
    line: &mut Line,
    link: &mut K,
    port: &P,
    pass: &mut P::Pass,
    clock: &C,
) -> LoopEnd
    requires { P.is_own port.now pass.old }
    ensures own { P.is_own port.now pass.new }
    ensures spent { result ≡ LoopEnd.Spent → P.is_spent pass.new }
    ensures slot { K.slot link.new ≡ K.slot link.old }
    ensures rounds { (steps : List Step) × (P.mine pass.new ≡ P.mine pass.old ++ steps)
        × IsWriterRun line.old.chan line.old.session (K.written link.old) (K.written link.new) (K.faults link.old)
        (K.faults link.new) result steps }
    ensures counted { K.faults link.old ≤ K.faults link.new }
    ensures cause { result ≡ LoopEnd.WriteFault → Rose (K.faults link.old) (K.faults link.new) }
{
    'rounds: loop {
        if let Some(end) = round(line, link, port, pass, clock) {
            return end;
        }
    }
}
