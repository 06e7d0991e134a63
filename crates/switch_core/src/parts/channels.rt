//! Calls about channels.
ghost use Rattle.std.specs.Prelude.{◌≡◌, ◌<◌, ◌^◌, ⊤, MatchOption, Some, None};
ghost use Rattle.switch_machine.specs.Adds.{UpCase};
ghost use Rattle.switch_machine.specs.State.{slot_at};
ghost use Rattle.switch_machine.specs.Calls.ChannelUp.{channel_up_result, channel_up_state};

use crate::channel::Channel;
use crate::parts::{MOST_CHANNELS, Parts};
use tr_io::answers::UpAnswer;
use tr_io::names::{ChanNo, Side};

#[tactic(auto, using(crate::proofs::Plain::plain_lists, crate::proofs::Plain::there, crate::proofs::Plain::beyond))]
impl Parts {
    /// Brings up a channel.
    pub fn channel_up(&mut self, side: Side) -> UpAnswer
        requires { self.old.steps < 2 ^ 62 }
        ensures state { UpCase result (self.new ≡ self.old) (self.new ≡ channel_up_state self.old side) }
        ensures answer { UpCase result ⊤ (result ≡ channel_up_result self.old) }
    {
        let number = self.channels.len();
        if number >= MOST_CHANNELS as usize {
            self.counters.steps += 1;
            return UpAnswer::Full(MOST_CHANNELS);
        }
        if self.channels.push(Channel::new(self.alloc, side)).is_err() {
            return UpAnswer::Memory;
        }
        self.counters.steps += 1;
        UpAnswer::Up(ChanNo(number as u64))
    }

    /// The channel with this number, if it is live.
    pub(super) fn channel(&self, chan: ChanNo) -> Option<&Channel>
        ensures { MatchOption result (slot_at self.now.channels chan.0 ≡ None)
            (λ channel. slot_at self.now.channels chan.0 ≡ Some channel.now) }
    {
        if chan.0 < self.channels.len() as u64 {
            Some(&self.channels[chan.0 as usize])
        } else {
            None
        }
    }
}
