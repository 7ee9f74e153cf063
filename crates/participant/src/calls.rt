//! The calls on a participant.
ghost use Rattle.std.specs.Prelude.{◌≡◌, true, ◌++◌, length, drop};
ghost use Rattle.agreement.specs.Calls.{close_refusal};
ghost use Rattle.board.specs.Setups.{if_accepted};
ghost use Rattle.law.specs.Runs.{run, history, after};
ghost use Rattle.law.specs.declared.calls.Call.TheVariants as call;
ghost use Rattle.play.specs.Moves.{call_says};
ghost use Rattle.refusal.specs.Refusals.{answered};
ghost use Rattle.relay.specs.Own.{own_octets, own_refusal, own_placed};
ghost use Rattle.participant.specs.Results.{decision_at};
ghost use Rattle.participant.specs.Held.{HasRoom};
ghost use Rattle.participant.specs.Participants.{heard_parts, hear_refusal, heard_calls, strip_move, strip_moves, with_world};

use super::state::Participant;
use board::Decision;
use coin::Strip;
use law::Answer;
use reading::Reading;
use refusal::Refusal;
use relay::{deliver, own_message};
use wire::read::read_message;

impl<R: Reading> Participant<R> {
    // Writes the message that the node sends in the step in force to the front of a place, and gives its length.
    pub fn message(&self, place: &mut [u8]) -> Result<usize, Refusal>
        ensures answer { let h = self.now in result ≡ answered (own_refusal R.Reading.WIDTH R.Reading.octets h.world.state h.world.values h.node place.old) (length (own_octets R.Reading.WIDTH R.Reading.octets h.world.state h.world.values h.node)) }
        ensures place { let h = self.now in place.new ≡ if_accepted (own_refusal R.Reading.WIDTH R.Reading.octets h.world.state h.world.values h.node place.old) (own_placed R.Reading.WIDTH R.Reading.octets h.world.state h.world.values h.node place.old) place.old }
        ensures room { HasRoom self.now }
    {
        own_message(&self.instance, &self.boards.values, self.node, place)
    }

    // Hears octets as a message to the node: makes the calls that it stands for, writes their answers to the front of the list, and gives their number.
    pub fn hear(&mut self, octets: &[u8], answers: &mut [Answer<R>]) -> Result<usize, Refusal>
        ensures answer { let h = self.old in let q = heard_parts R.Reading.WIDTH R.Reading.reads h octets.now in result ≡ answered (hear_refusal R.Reading.WIDTH R.Reading.reads h (length answers.old) q) (length (heard_calls R.Reading.WIDTH R.Reading.reads h q)) }
        ensures held { let h = self.old in let q = heard_parts R.Reading.WIDTH R.Reading.reads h octets.now in self.new ≡ if_accepted (hear_refusal R.Reading.WIDTH R.Reading.reads h (length answers.old) q) (with_world h (run R.Reading.meaning h.world (strip_moves h.strip (heard_calls R.Reading.WIDTH R.Reading.reads h q)))) h }
        ensures answers { let h = self.old in let q = heard_parts R.Reading.WIDTH R.Reading.reads h octets.now in let calls = heard_calls R.Reading.WIDTH R.Reading.reads h q in answers.new ≡ if_accepted (hear_refusal R.Reading.WIDTH R.Reading.reads h (length answers.old) q) (call_says (history R.Reading.meaning h.world (strip_moves h.strip calls)) ++ drop (length calls) answers.old) answers.old }
        ensures room { HasRoom self.new }
    {
        let n = self.instance.nodes();
        let m = self.instance.items();
        let message = read_message::<R>(octets, n, m)?;
        deliver(
            &message,
            &mut self.instance,
            &mut self.boards.sent,
            &mut self.boards.marks,
            self.node,
            answers,
        )
    }

    // Closes the step with the strip.
    pub fn close(&mut self) -> Result<(), Refusal>
        ensures answer { result ≡ answered (close_refusal self.old.world.state true) tt }
        ensures held { let h = self.old in self.new ≡ with_world h (after R.Reading.meaning h.world (strip_move h.strip call.Close)) }
        ensures room { HasRoom self.new }
    {
        let strip = Strip::new(&self.entries)?;
        let boards = &mut self.boards;
        self.instance.close(
            &strip,
            &mut boards.values,
            &mut boards.scratch,
            &boards.sent,
            &mut boards.marks,
        )
    }

    // What the node has decided of an item so far.
    pub fn decision(&self, item: usize) -> Result<Decision<R>, Refusal>
        ensures decision { result ≡ decision_at self.now item }
        ensures room { HasRoom self.now }
    {
        self.instance.decision(&self.boards.values, self.node, item)
    }
}
