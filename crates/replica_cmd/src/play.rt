//! The lines of a script, one after another.
ghost use Rattle.std.specs.Prelude.{◌≡◌, ◌⊎◌, ℕ, ◌<◌, ◌≤◌, List, Some, Err, IfOk, IsOk, OnOk, OnErr, IsErrOf, length, map};
ghost use Rattle.number_crdts.specs.Number.{number_meaning};
ghost use Rattle.lab_store.specs.Stream.{Appends, AppendsPart, Rose};
ghost use Rattle.lab_model.specs.Honest.{IsHonestLab};
ghost use Rattle.lab_model.specs.Lab.{lab_step};
ghost use Rattle.lab_model.specs.Line.{lines_of};
ghost use Rattle.replica_cmd.specs.Number.{number_op};
ghost use Rattle.replica_cmd.specs.Reading.{most_bytes};
ghost use Rattle.replica_cmd.specs.Run.{run_text, AreFairLines, ArePlayed, Puts, PutsTexts};
ghost use Rattle.replica_cmd.specs.Steps.{StepsAndPuts};
ghost use Rattle.replica_cmd.specs.Things.{contents, most_made, IsKeptLab, IsLabUpTo};

use crate::lab::Lab;
use crate::lines::lines_of;
use crate::outside::{put_text, script_of};
use crate::stop::Stop;
use lab_store::{Sink, Source};
use std::alloc::Global;

/// Runs a line, puts its text, and says whether it was refused.
fn run_line<W: Sink>(alloc: Global, lab: &mut Lab, line: &[u8], sink: &mut W) -> Result<bool, Stop>
    requires kept { IsKeptLab (contents lab.old) }
    requires room { IsLabUpTo most_made (contents lab.old) }
    ensures steps { IfOk result (λ refused. StepsAndPuts (contents lab.old) (contents lab.new) line.now (W.told sink.old) (W.told sink.new) refused) }
    ensures part { IsErrOf result Stop.Sink → IsHonestLab (number_meaning 0) (contents lab.old) → AppendsPart (W.told sink.old) (W.told sink.new) (lab_step (number_meaning 0) number_op (contents lab.old) line.now).text }
    ensures fault { IsErrOf result Stop.Sink → Rose (W.faults sink.old) (W.faults sink.new) }
    ensures calm { OnOk result (W.faults sink.new ≡ W.faults sink.old) }
    ensures nothing { IsErrOf result Stop.NoMemory → W.told sink.new ≡ W.told sink.old }
    ensures no_others { OnErr result ((result ≡ Err Stop.Sink) ⊎ (result ≡ Err Stop.NoMemory)) }
{
    let reply = lab.answer(alloc, line)?;
    put_text(alloc, sink, reply.text.as_str())?;
    Ok(reply.refused)
}

/// Runs lines from an empty lab, puts their texts, and says whether one of them was refused.
fn run_lines<W: Sink>(alloc: Global, lines: &[&[u8]], sink: &mut W) -> Result<bool, Stop>
    requires { length lines.now ≤ most_made }
    ensures played { IfOk result (λ refused. AreFairLines (map (λ line. line.now) lines.now) → ArePlayed (map (λ line. line.now) lines.now) (W.told sink.old) (W.told sink.new) refused) }
    ensures each { IfOk result (λ refused. PutsTexts (length lines.now) (W.told sink.old) (W.told sink.new) refused) }
    ensures part { OnErr result (AreFairLines (map (λ line. line.now) lines.now) → AppendsPart (W.told sink.old) (W.told sink.new) (run_text (map (λ line. line.now) lines.now))) }
    ensures fault { IsErrOf result Stop.Sink → Rose (W.faults sink.old) (W.faults sink.new) }
    ensures no_others { OnErr result ((result ≡ Err Stop.Sink) ⊎ (result ≡ Err Stop.NoMemory)) }
{
    let mut lab = Lab::new(alloc);
    let mut refused = false;
    for line in lines {
        let is_refused = run_line(alloc, &mut lab, line, sink)?;
        refused |= is_refused;
    }
    Ok(refused)
}

/// Runs the script of a source, and says whether one of its lines was refused.
pub(crate) fn play<S: Source, W: Sink>(
    alloc: Global,
    source: &mut S,
    sink: &mut W,
) -> Result<bool, Stop>
    ensures played { IfOk result (λ refused. (script : List ℕ) → S.left source.old ≡ Some script → AreFairLines (lines_of script) → ArePlayed (lines_of script) (W.told sink.old) (W.told sink.new) refused) }
    ensures puts { IfOk result (λ refused. Puts (W.told sink.old) (W.told sink.new) refused) }
    ensures each { IfOk result (λ refused. (script : List ℕ) → S.left source.old ≡ Some script → PutsTexts (length (lines_of script)) (W.told sink.old) (W.told sink.new) refused) }
    ensures part { IsErrOf result Stop.Sink ⊎ IsErrOf result Stop.NoMemory → (script : List ℕ) → S.left source.old ≡ Some script → AreFairLines (lines_of script) → AppendsPart (W.told sink.old) (W.told sink.new) (run_text (lines_of script)) }
    ensures short { IsOk result ⊎ IsErrOf result Stop.Sink → (script : List ℕ) → S.left source.old ≡ Some script → length script ≤ most_bytes }
    ensures long { IsErrOf result Stop.Long → (script : List ℕ) → S.left source.old ≡ Some script → most_bytes < length script }
    ensures nothing { IsErrOf result Stop.Source ⊎ IsErrOf result Stop.Long → W.told sink.new ≡ W.told sink.old }
    ensures source_fault { IsErrOf result Stop.Source → Rose (S.faults source.old) (S.faults source.new) }
    ensures sink_fault { IsErrOf result Stop.Sink → Rose (W.faults sink.old) (W.faults sink.new) }
    ensures not_the_store { IsErrOf result Stop.Store → ⊥ }
{
    let script = script_of(alloc, source)?;
    let lines = lines_of(alloc, script.as_slice())?;
    run_lines(alloc, lines.as_slice(), sink)
}
