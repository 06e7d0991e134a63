//! The jobs of crypto workers that come home.
ghost use Rattle.std.specs.Prelude.{◌≡◌, ◌+◌, ◌<◌, ◌^◌};
ghost use Rattle.tr_io.specs.declared.step.Step.TheVariants.{Abandon, GiveBack};
ghost use Rattle.switch_machine.specs.Machine.{counted};
ghost use Rattle.switch_machine.specs.Calls.Abandon.{abandon_result};
ghost use Rattle.switch_core.specs.Returning.{OfPlace, RefusedCase};
ghost use Rattle.switch_core.specs.Started.{SwitchAdds};

use crate::homecoming::{seal_home, settle_home};
use crate::opening::forget_torn;
use crate::returning::first_difference;
use crate::switch::Switch;
use hop_crypto::{Done, DoneParts, Job, JobParts};
use tr_io::answers::BackAnswer;
use tr_io::names::Dir;

impl Switch {
    /// A job comes home undone: its circuit is torn down with INTERNAL. `Stranger` where it isn't what the
    /// switch gave out, `Gone` where the circuit was torn down, and then nothing changes. It takes no memory.
    pub fn abandon(&mut self, job: Job) -> BackAnswer
        requires { self.old.state.steps < 2 ^ 62 }
        ensures start { self.new.start ≡ self.old.start }
        ensures steps { self.new.state.steps ≡ self.old.state.steps + 1 }
        ensures whole { OfPlace self.old job.note job.cipher job.bodies.items
            (λ place. SwitchAdds self.old self.new (Abandon job.note place result)) }
        ensures refused { RefusedCase result (self.new ≡ record self.old { state = counted self.old.state }) }
        ensures answer { OfPlace self.old job.note job.cipher job.bodies.items
            (λ place. result ≡ abandon_result self.old.start.name self.old.state job.note place) }
    {
        let JobParts {
            note,
            cipher,
            bodies,
        } = job.apart();
        let place = first_difference(&self.parts, &self.relays, note, &cipher, bodies.as_slice());
        let answer = self.parts.abandon(self.name, note, place);
        forget_torn(&mut self.relays, note.circ, answer);
        answer
    }

    /// A job comes home worked. Forward bodies act on the circuit one after another, as the one-thread relay lets
    /// them, up to the first that closes it: then the answer is `Down`, and the circuit is torn down. Backward
    /// bodies are the next cells of the leg towards the client. `Stranger` where the job isn't what the switch gave
    /// out, `Gone` where the circuit was torn down, and then nothing changes. It takes no memory.
    pub fn give_back(&mut self, done: Done) -> BackAnswer
        requires { self.old.state.steps < 2 ^ 62 }
        ensures start { self.new.start ≡ self.old.start }
        ensures steps { self.new.state.steps ≡ self.old.state.steps + 1 }
        ensures whole { OfPlace self.old done.note done.start done.input.items
            (λ place. SwitchAdds self.old self.new (GiveBack done.note place result)) }
        ensures refused { RefusedCase result (self.new ≡ record self.old { state = counted self.old.state }) }
    {
        let DoneParts {
            note,
            start,
            input,
            end,
            output,
        } = done.apart();
        let place = first_difference(&self.parts, &self.relays, note, &start, input.as_slice());
        if let Some(answer) = self.parts.refuse_return(self.name, note, place) {
            return answer;
        }
        match note.dir {
            Dir::Forth => settle_home(
                &mut self.parts,
                &mut self.relays,
                &self.rules,
                note.circ,
                end,
                output.as_slice(),
            ),
            Dir::Back => {
                seal_home(
                    &mut self.parts,
                    &mut self.relays,
                    note.circ,
                    end,
                    output.as_slice(),
                );
                BackAnswer::Settled
            }
        }
    }
}
