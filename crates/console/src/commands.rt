//! What the fields of a line ask for, by its letter.
ghost use Rattle.std.specs.Prelude.{◌≡◌, ◌-◌, true, length};
ghost use Rattle.console.specs.Grammar.{command_of};
ghost use Rattle.console.specs.Letters.{takes_fields};
ghost use Rattle.lines.specs.Fields.{fields};

use crate::fields::Walk;
use crate::types::{Command, Letter};
use law::{Call, SetupCall};
use refusal::Fault;
use spelling::Spelled;

// What the fields of a letter's line ask for.
pub(crate) fn parse_command<R: Spelled>(
    line: &[u8],
    letter: Letter,
    count: usize,
) -> Result<Command<R>, Fault>
    requires taken { takes_fields letter count ≡ true }
    requires all { count ≡ length (fields 32 line.now) - 1 }
    ensures { result ≡ command_of R.Spelled.parses (fields 32 line.now) letter }
{
    let mut walk = Walk::after_letter(line);
    match letter {
        Letter::Make => {
            let n = walk.number()?;
            let m = walk.number()?;
            let kind = walk.kind()?;
            Ok(Command::Make { n, m, kind })
        }
        Letter::Faulty => {
            let node = walk.number()?;
            Ok(Command::Prepare(SetupCall::MarkFaulty { node }))
        }
        Letter::Propose => {
            let node = walk.number()?;
            let item = walk.number()?;
            let cell = walk.cell()?;
            Ok(Command::Prepare(SetupCall::Propose { node, item, cell }))
        }
        Letter::Strip => {
            let entries = walk.entries(count)?;
            Ok(Command::Strip { entries, count })
        }
        Letter::Open => Ok(Command::Open),
        Letter::Value => {
            let sender = walk.number()?;
            let receiver = walk.number()?;
            let item = walk.number()?;
            let cell = walk.cell()?;
            Ok(Command::Call(Call::SendValue {
                sender,
                receiver,
                item,
                cell,
            }))
        }
        Letter::Bit => {
            let sender = walk.number()?;
            let receiver = walk.number()?;
            let item = walk.number()?;
            let bit = walk.bit()?;
            Ok(Command::Call(Call::SendBit {
                sender,
                receiver,
                item,
                bit,
            }))
        }
        Letter::Final => {
            let sender = walk.number()?;
            let receiver = walk.number()?;
            Ok(Command::Call(Call::SendFinal { sender, receiver }))
        }
        Letter::Close => Ok(Command::Call(Call::Close)),
        Letter::Look => {
            let node = walk.number()?;
            let item = walk.number()?;
            Ok(Command::Call(Call::Decision { node, item }))
        }
        Letter::End => Ok(Command::End),
    }
}
