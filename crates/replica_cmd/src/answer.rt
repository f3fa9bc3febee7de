//! What a line does to a lab, and what it prints.
ghost use Rattle.std.specs.Prelude.{◌≡◌, true, string_bytes, IfOk};
ghost use Rattle.lab_model.specs.Text.{refused_text};
ghost use Rattle.replica_cmd.specs.Run.{IsSaid};

use crate::lab::Lab;
use crate::number::op_of;
use crate::parse::command_of;
use crate::things::Hindrance;
use crdt_laws::NoMemory;
use lab_model::{Command, Refusal};
use std::alloc::Global;

/// The text of a line, and whether the line was refused.
#[derive(Debug, Drop)]
pub(crate) struct Reply {
    pub(crate) text: String,
    pub(crate) refused: bool,
}

/// A refusal.
pub(crate) fn refusal_of(alloc: Global, cause: &Refusal) -> Result<Reply, NoMemory>
    ensures text { IfOk result (λ reply. string_bytes reply.text ≡ refused_text cause.now) }
    ensures refused { IfOk result (λ reply. reply.refused ≡ true) }
    ensures said { IfOk result (λ reply. IsSaid (string_bytes reply.text) reply.refused) }
{
    Ok(Reply {
        text: text_of_refusal(alloc, cause)?,
        refused: true,
    })
}

/// The text of a refusal.
pub(crate) fn text_of_refusal(alloc: Global, cause: &Refusal) -> Result<String, NoMemory>
    ensures { IfOk result (λ text. string_bytes text ≡ refused_text cause.now) }
{
    Ok(format!(in alloc; "refused {cause}\n")?)
}

impl Lab {
    ghost use Rattle.std.specs.Prelude.{◌≡◌, ℕ, string_bytes, IfOk, OnOk};
    ghost use Rattle.lab_model.specs.Honest.{IsHonestLab};
    ghost use Rattle.lab_model.specs.Lab.{act, act_on};
    ghost use Rattle.lab_model.specs.Line.{command_of};
    ghost use Rattle.number_crdts.specs.Number.{number_meaning};
    ghost use Rattle.replica_cmd.specs.Number.{number_op};
    ghost use Rattle.replica_cmd.specs.Run.{IsAccepted};
    ghost use Rattle.replica_cmd.specs.Steps.{HasMember, Steps};
    ghost use Rattle.replica_cmd.specs.Things.{contents, most_made, Answers, IsKeptLab, IsLabUpTo, Keeps};

    /// Carries out a command, by its handler.
    fn obey(&mut self, alloc: Global, command: Command) -> Result<String, Hindrance>
        requires member { HasMember command }
        requires kept { IsKeptLab (contents self.old) }
        requires room { IsLabUpTo most_made (contents self.old) }
        ensures answers { IsHonestLab (number_meaning 0) (contents self.old) → Answers result (contents self.new) (act (number_meaning 0) number_op (contents self.old) command) }
        ensures keeps { Keeps (contents self.old) (contents self.new) result }
        ensures said { IfOk result (λ text. IsAccepted (string_bytes text)) }
    {
        match command {
            Command::New { file, member } => self.make(alloc, file, member),
            Command::Edit { file, verb, amount } => self.edit(alloc, file, op_of(verb, amount)),
            Command::Show { file } => self.show(alloc, file),
            Command::Export { file, batch } => self.export(alloc, file, batch),
            Command::Merge { file, batch } => self.merge(alloc, file, batch),
            Command::Play | Command::Check { .. } => Err(Hindrance::Refused(Refusal::Unbuilt)),
        }
    }

    /// Carries out the command that a line is. A line that is none is refused.
    fn attempt(&mut self, alloc: Global, line: &[u8]) -> Result<String, Hindrance>
        requires kept { IsKeptLab (contents self.old) }
        requires room { IsLabUpTo most_made (contents self.old) }
        ensures answers { IsHonestLab (number_meaning 0) (contents self.old) → Answers result (contents self.new) (act_on (number_meaning 0) number_op (contents self.old) (command_of line.now)) }
        ensures keeps { Keeps (contents self.old) (contents self.new) result }
        ensures said { IfOk result (λ text. IsAccepted (string_bytes text)) }
    {
        match command_of(alloc, line)? {
            Some(command) => self.obey(alloc, command),
            None => Err(Hindrance::Refused(Refusal::Unbuilt)),
        }
    }

    /// Runs a line.
    pub(crate) fn answer(&mut self, alloc: Global, line: &[u8]) -> Result<Reply, NoMemory>
        requires kept { IsKeptLab (contents self.old) }
        requires room { IsLabUpTo most_made (contents self.old) }
        ensures { IfOk result (λ reply. Steps (contents self.old) (contents self.new) line.now (string_bytes reply.text) reply.refused) }
    {
        match self.attempt(alloc, line) {
            Ok(text) => Ok(Reply {
                text,
                refused: false,
            }),
            Err(Hindrance::Refused(cause)) => Ok(Reply {
                text: text_of_refusal(alloc, &cause)?,
                refused: true,
            }),
            Err(Hindrance::NoMemory) => Err(NoMemory),
        }
    }
}
