//! The orders to dial next hops.
ghost use Rattle.std.specs.Prelude.{◌≡◌, ◌+◌, ◌<◌, ◌^◌, List, option_map};
ghost use Rattle.tr_io.specs.PortSteps.{dial_step_of};
ghost use Rattle.tr_io.specs.declared.step.Step.{Step};
ghost use Rattle.tr_io.specs.declared.step.Step.TheVariants.{DialOrder as DialOrderStep};
ghost use Rattle.switch_model.specs.Answers.DialOrder.{dial_order_answer};
ghost use Rattle.switch_model.specs.Legal.{IsDialOrder};
ghost use Rattle.switch_machine.specs.Calls.DialOrder.{dial_order_result};
ghost use Rattle.switch_core.specs.Started.{SwitchAdds, SwitchStands};

use crate::switch::Switch;
use tr_io::dials::DialOrder;

impl Switch {
    /// Hands out the oldest dial order that waits, with the first live channel that leads to its destination, if
    /// there is one. `None` where none waits. It takes no memory.
    pub fn dial_order(&mut self) -> Option<DialOrder>
        requires { self.old.state.steps < 2 ^ 62 }
        ensures start { self.new.start ≡ self.old.start }
        ensures relays { self.new.relays ≡ self.old.relays }
        ensures steps { self.new.state.steps ≡ self.old.state.steps + 1 }
        ensures answer { option_map dial_step_of result ≡ dial_order_result self.old.state }
        ensures whole { SwitchAdds self.old self.new (DialOrderStep (option_map dial_step_of result)) }
        ensures right { (h : List Step) → SwitchStands self.old h
            → IsDialOrder self.old.start.rules h (option_map dial_step_of result) }
        ensures oldest { (h : List Step) → SwitchStands self.old h
            → option_map dial_step_of result ≡ dial_order_answer self.old.start.rules h }
    {
        self.parts.dial_order()
    }
}
