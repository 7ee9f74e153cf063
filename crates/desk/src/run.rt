//! The commands on a desk.
ghost use Rattle.std.specs.Prelude.{◌≡◌, ◌≤◌, length};
ghost use Rattle.coin.specs.Tosses.{strip_toss};
ghost use Rattle.desk.specs.Desks.{on_setup, on_instance, on_table, prepares, strips, opens, ends, looks, acts, serve_call, serve};
ghost use Rattle.desk.specs.Views.{HasRoom};
ghost use Rattle.play.specs.Moves.{Made, move_of, world_of};

use super::stage::{Desk, Reply, Stage};
use agreement::Instance;
use coin::{Coin, Strip};
use console::Command;
use law::{Answer, Call, SetupCall};
use play::Boards;
use play::apply::{apply, apply_setup};
use reading::Reading;
use refusal::Refusal;

// Makes a call on an instance with these boards, each lent by itself as a field of the desk; a close brings this coin.
fn apply_lent<R: Reading, C: Coin>(
    instance: &mut Instance,
    call: &Call<R>,
    coin: &C,
    values: &mut [Option<R>],
    scratch: &mut [Option<R>],
    sent: &mut [Option<R>],
    marks: &mut [u8],
) -> Answer<R>
    ensures { Made R.Reading.meaning (move_of instance.old.table.n instance.old.table.m (record { values = values.old; scratch = scratch.old; sent = sent.old; marks = marks.old }) (C.Coin.tosses coin.now) call.now) (world_of instance.old (record { values = values.old; scratch = scratch.old; sent = sent.old; marks = marks.old })) (world_of instance.new (record { values = values.new; scratch = scratch.new; sent = sent.new; marks = marks.new })) result }
{
    let mut boards = Boards {
        values,
        scratch,
        sent,
        marks,
    };
    apply(instance, call, coin, &mut boards)
}

// Makes a call on an instance with these boards; a close brings the strip over these entries.
fn apply_by_strip<R: Reading>(
    instance: &mut Instance,
    call: &Call<R>,
    entries: &[u16],
    values: &mut [Option<R>],
    scratch: &mut [Option<R>],
    sent: &mut [Option<R>],
    marks: &mut [u8],
) -> Answer<R>
    requires { (1 ≤ length entries.now) × (length entries.now ≤ 8) }
    ensures { Made R.Reading.meaning (move_of instance.old.table.n instance.old.table.m (record { values = values.old; scratch = scratch.old; sent = sent.old; marks = marks.old }) (λ node round item. strip_toss entries.now round item) call.now) (world_of instance.old (record { values = values.old; scratch = scratch.old; sent = sent.old; marks = marks.old })) (world_of instance.new (record { values = values.new; scratch = scratch.new; sent = sent.new; marks = marks.new })) result }
{
    let strip = Strip::new(entries)?;
    apply_lent(instance, call, &strip, values, scratch, sent, marks)
}

impl<R: Reading> Desk<R> {
    // Makes a call on the setup.
    fn prepare(&mut self, call: &SetupCall<R>) -> Result<Reply<R>, Refusal>
        ensures reply { result ≡ (on_setup self.old (prepares self.old call.now) self.old.stage).reply }
        ensures desk { self.new ≡ (on_setup self.old (prepares self.old call.now) self.old.stage).held }
    {
        match self.stage.take() {
            Some(Stage::Making(mut setup)) => {
                let answer = apply_setup(&mut setup, call, &mut self.boards.values);
                self.stage = Some(Stage::Making(setup));
                answer.map(|_| Reply::Done)
            }
            other => {
                self.stage = other;
                Err(Refusal::OutOfTurn)
            }
        }
    }

    // What a node has decided of an item.
    fn look(&self, node: usize, item: usize) -> Result<Reply<R>, Refusal>
        ensures { result ≡ (on_table self.now (looks self.now node item) self.now.stage).reply }
    {
        let seen = |decision| Reply::Decision {
            node,
            item,
            decision,
        };
        let values = &self.boards.values;
        match &self.stage {
            Some(Stage::Running(instance)) => instance.decision(values, node, item).map(seen),
            Some(Stage::Ended(outcome)) => outcome.decision(values, node, item).map(seen),
            _ => Err(Refusal::OutOfTurn),
        }
    }

    // Makes a send or a close on the instance.
    fn act(&mut self, call: &Call<R>) -> Result<Reply<R>, Refusal>
        ensures reply { result ≡ (on_instance self.old (acts R.Reading.meaning self.old call.now) self.old.stage).reply }
        ensures desk { self.new ≡ (on_instance self.old (acts R.Reading.meaning self.old call.now) self.old.stage).held }
    {
        match self.stage.take() {
            Some(Stage::Running(mut instance)) => {
                let answer = apply_by_strip(
                    &mut instance,
                    call,
                    &self.entries[..self.count],
                    &mut self.boards.values,
                    &mut self.boards.scratch,
                    &mut self.boards.sent,
                    &mut self.boards.marks,
                );
                self.stage = Some(Stage::Running(instance));
                answer.map(|_| Reply::Done)
            }
            other => {
                self.stage = other;
                Err(Refusal::OutOfTurn)
            }
        }
    }

    // Sets the strip to the first `count` entries, at least one.
    fn set_strip(&mut self, entries: [u16; 8], count: usize) -> Result<Reply<R>, Refusal>
        ensures reply { result ≡ (on_setup self.old (strips self.old entries count) self.old.stage).reply }
        ensures desk { self.new ≡ (on_setup self.old (strips self.old entries count) self.old.stage).held }
    {
        match self.stage {
            Some(Stage::Making(_)) => {
                self.entries = entries;
                self.count = count.clamp(1, 8);
                Ok(Reply::Done)
            }
            _ => Err(Refusal::OutOfTurn),
        }
    }

    // Opens the setup.
    fn open(&mut self) -> Result<Reply<R>, Refusal>
        ensures reply { result ≡ (on_setup self.old (opens self.old) self.old.stage).reply }
        ensures desk { self.new ≡ (on_setup self.old (opens self.old) self.old.stage).held }
    {
        match self.stage.take() {
            Some(Stage::Making(setup)) => {
                self.stage = Some(Stage::Running(setup.open()));
                Ok(Reply::Done)
            }
            other => {
                self.stage = other;
                Err(Refusal::OutOfTurn)
            }
        }
    }

    // Ends the instance.
    fn end(&mut self) -> Result<Reply<R>, Refusal>
        ensures reply { result ≡ (on_instance self.old (ends self.old) self.old.stage).reply }
        ensures desk { self.new ≡ (on_instance self.old (ends self.old) self.old.stage).held }
    {
        match self.stage.take() {
            Some(Stage::Running(instance)) => {
                self.stage = Some(Stage::Ended(instance.end()));
                Ok(Reply::Rows)
            }
            other => {
                self.stage = other;
                Err(Refusal::OutOfTurn)
            }
        }
    }

    // Makes a call after the opening. No line asks how many items are undecided, so that call is out of turn too.
    fn call(&mut self, call: &Call<R>) -> Result<Reply<R>, Refusal>
        ensures reply { result ≡ (serve_call R.Reading.meaning self.old call.now).reply }
        ensures desk { self.new ≡ (serve_call R.Reading.meaning self.old call.now).held }
    {
        match *call {
            Call::Decision { node, item } => self.look(node, item),
            Call::Undecided { .. } => Err(Refusal::OutOfTurn),
            _ => self.act(call),
        }
    }

    // Makes what a command asks for.
    fn serve(&mut self, command: &Command<R>) -> Result<Reply<R>, Refusal>
        ensures reply { result ≡ (serve R.Reading.meaning self.old command.now).reply }
        ensures desk { self.new ≡ (serve R.Reading.meaning self.old command.now).held }
    {
        match *command {
            Command::Make { .. } => Err(Refusal::OutOfTurn),
            Command::Prepare(call) => self.prepare(&call),
            Command::Strip { entries, count } => self.set_strip(entries, count),
            Command::Open => self.open(),
            Command::Call(call) => self.call(&call),
            Command::End => self.end(),
        }
    }

    // Runs a command. One that is out of turn is refused, and so is a second making of a setup.
    pub fn run(&mut self, command: &Command<R>) -> Result<Reply<R>, Refusal>
        ensures reply { result ≡ (serve R.Reading.meaning self.old command.now).reply }
        ensures desk { self.new ≡ (serve R.Reading.meaning self.old command.now).held }
        ensures room { HasRoom self.new }
    {
        let reply = self.serve(command);
        let _ = &self.count; // what is so of every desk is known of this one
        reply
    }
}
