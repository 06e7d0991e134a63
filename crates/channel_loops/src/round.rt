//! One round of a link's writer.
ghost use Rattle.std.specs.Prelude.{◌≡◌, ◌≤◌, ◌∷◌, [], false, vec_capacity};
ghost use Rattle.tr_io.specs.declared.step.Step.TheVariants.{Halted};
ghost use Rattle.channel_loops.specs.RoundMade.{RoundMade};

use crate::line::Line;
use tr_io::clock::Clock;
use tr_io::core_port::CorePort;
use tr_io::loop_end::LoopEnd;
use tr_io::slot_out::SlotOut;
use tr_io::stepping::Turn;

// Makes a round; an end where it was the last.
pub(crate) fn round<K: SlotOut, P: CorePort, C: Clock>(
    line: &mut Line,
    link: &mut K,
    port: &P,
    pass: &mut P::Pass,
    clock: &C,
) -> Option<LoopEnd>
    requires { P.is_own port.now pass.old }
    ensures own { P.is_own port.now pass.new }
    ensures same { (line.new.session ≡ line.old.session) × (line.new.chan ≡ line.old.chan) }
    ensures spent { result ≡ Some LoopEnd.Spent → P.is_spent pass.new }
    ensures slot { K.slot link.new ≡ K.slot link.old }
    ensures made { RoundMade [] line.old.chan line.old.session
        (record { steps = P.mine pass.old; written = K.written link.old; faults = K.faults link.old })
        (record { steps = P.mine pass.new; written = K.written link.new; faults = K.faults link.new }) result }
    ensures counted { K.faults link.old ≤ K.faults link.new }
{
    if line.reserve().is_err() {
        return Some(LoopEnd::Memory);
    }
    match port.halted(pass) {
        Turn::Did(false) => send_next(line, link, port, pass, clock),
        Turn::Did(true) => Some(LoopEnd::Halted),
        Turn::Spent => Some(LoopEnd::Spent),
    }
}

// Writes the next cell that leaves on the channel; waits where none does.
fn send_next<K: SlotOut, P: CorePort, C: Clock>(
    line: &mut Line,
    link: &mut K,
    port: &P,
    pass: &mut P::Pass,
    clock: &C,
) -> Option<LoopEnd>
    requires own { P.is_own port.now pass.old }
    requires room { (line.old.bytes.items ≡ []) × (65542 ≤ vec_capacity line.old.bytes) }
    ensures own { P.is_own port.now pass.new }
    ensures same { (line.new.session ≡ line.old.session) × (line.new.chan ≡ line.old.chan) }
    ensures spent { result ≡ Some LoopEnd.Spent → P.is_spent pass.new }
    ensures slot { K.slot link.new ≡ K.slot link.old }
    ensures made { RoundMade (Halted false ∷ []) line.old.chan line.old.session
        (record { steps = P.mine pass.old; written = K.written link.old; faults = K.faults link.old })
        (record { steps = P.mine pass.new; written = K.written link.new; faults = K.faults link.new }) result }
    ensures counted { K.faults link.old ≤ K.faults link.new }
{
    match port.next_cell(pass, line.chan, clock.tick()) {
        Turn::Did(Some(cell)) => {
            if line.write(link, &cell) {
                return None;
            }
            match port.channel_down(pass, line.chan) {
                Turn::Did(_) => Some(LoopEnd::WriteFault),
                Turn::Spent => Some(LoopEnd::Spent),
            }
        }
        Turn::Did(None) => match port.live(pass, line.chan) {
            Turn::Did(true) => {
                port.wait(pass);
                None
            }
            Turn::Did(false) => Some(LoopEnd::Ended),
            Turn::Spent => Some(LoopEnd::Spent),
        },
        Turn::Spent => Some(LoopEnd::Spent),
    }
}
