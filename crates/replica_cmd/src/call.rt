//! The top call: words in, a status out.
ghost use Rattle.std.specs.Prelude.{◌≡◌, ◌⊎◌, true, Err, IfOk, OnErr, IsErrOf, map, string_bytes};
ghost use Rattle.lab_model.specs.Line.{command_of_words};
ghost use Rattle.lab_store.specs.Stream.{Appends, Rose};
ghost use Rattle.lab_model.specs.Text.{refused_text};
ghost use Rattle.replica_cmd.specs.Run.{IsCheck, IsRun, Puts};
ghost use Rattle.replica_cmd.specs.Status.{status_of};

use crate::answer::text_of_refusal;
use crate::check::check;
use crate::outside::put_text;
use crate::parse::command_of_words;
use crate::play::play;
use crate::stop::Stop;
use crdt_laws::NoMemory;
use lab_model::{Command, Refusal};
use lab_store::{Sink, Source, Store};
use std::alloc::Global;

/// Puts the text of a refusal.
fn refuse<W: Sink>(alloc: Global, sink: &mut W, cause: &Refusal) -> Result<bool, Stop>
    ensures put { IfOk result (λ refused. Appends (W.told sink.old) (W.told sink.new) (refused_text cause.now)) }
    ensures refused { IfOk result (λ refused. refused ≡ true) }
    ensures puts { IfOk result (λ refused. Puts (W.told sink.old) (W.told sink.new) refused) }
    ensures fault { IsErrOf result Stop.Sink → Rose (W.faults sink.old) (W.faults sink.new) }
    ensures no_others { OnErr result ((result ≡ Err Stop.Sink) ⊎ (result ≡ Err Stop.NoMemory)) }
{
    let text = text_of_refusal(alloc, cause)?;
    put_text(alloc, sink, text.as_str())?;
    Ok(true)
}

/// The status of a call that ran all of its lines, of which some were refused or none, or that was stopped.
fn status_of(outcome: Result<bool, Stop>) -> u8
    ensures { result ≡ status_of outcome }
{
    match outcome {
        Ok(false) => 0,
        Ok(true) => 2,
        Err(Stop::NoMemory) => 3,
        Err(Stop::Source | Stop::Store) => 4,
        Err(Stop::Sink) => 6,
        Err(Stop::Long) => 7,
    }
}

/// The bytes of each word.
fn bytes_of(alloc: Global, words: &[String]) -> Result<Vec<&[u8]>, NoMemory>
    ensures { IfOk result (λ pieces. map (λ piece. piece.now) pieces.items ≡ map string_bytes words.now) }
{
    let mut pieces = Vec::new(alloc);
    for word in words {
        pieces.push(word.as_bytes())?;
    }
    Ok(pieces)
}

/// Does what the words ask for, and says whether something was refused or a table is broken.
fn obey<K: Store, S: Source, W: Sink>(
    alloc: Global,
    words: &[String],
    store: &mut K,
    source: &mut S,
    sink: &mut W,
) -> Result<bool, Stop>
    ensures runs { IsRun (map string_bytes words.now) (S.left source.old) (K.files store.old) (W.told sink.old) (W.told sink.new) (status_of result) }
    ensures source_fault { IsErrOf result Stop.Source → Rose (S.faults source.old) (S.faults source.new) }
    ensures store_fault { IsErrOf result Stop.Store → Rose (K.fetch_faults store.old) (K.fetch_faults store.new) }
    ensures sink_fault { IsErrOf result Stop.Sink → Rose (W.faults sink.old) (W.faults sink.new) }
    ensures files { K.files store.new ≡ K.files store.old }
    ensures store { IsCheck (command_of_words (map string_bytes words.now)) ⊎ (store.new ≡ store.old) }
{
    let words = bytes_of(alloc, words)?;
    let Some(command) = command_of_words(alloc, words.as_slice())? else {
        return refuse(alloc, sink, &Refusal::Unbuilt);
    };
    match command {
        Command::Play => play(alloc, source, sink),
        Command::Check { table } => check(alloc, table, store, sink),
        _ => refuse(alloc, sink, &Refusal::Unbuilt),
    }
}

/// Runs the words of a call, and gives its status.
///
/// The one word `play` runs the lines of the source, from nothing that is there. The word `check` and the name of a file say
/// whether the table in the file of the store keeps the laws. Other words are refused.
///
/// | Status | It comes |
/// |---|---|
/// | 0 | where all lines were accepted, or the table is lawful |
/// | 2 | where a line or the words were refused, the file is no table, or the table is broken |
/// | 3 | where it ran out of memory, at any point |
/// | 4 | only where the source failed, or the store at a fetch |
/// | 6 | only where the sink failed |
/// | 7 | where the script has more than 32,768 bytes, or the file more than 67,108,864 |
///
/// Each line that is run puts one text, and a check puts one. With 4 and 7 none is put, with 3 and 6 some of the texts. The
/// store's files stay as they are, and only a check uses the store.
pub fn run<K: Store, S: Source, W: Sink>(
    alloc: Global,
    words: &[String],
    store: &mut K,
    source: &mut S,
    sink: &mut W,
) -> u8
    ensures runs { IsRun (map string_bytes words.now) (S.left source.old) (K.files store.old) (W.told sink.old) (W.told sink.new) result }
    ensures read_fault { result ≡ 4 → Rose (S.faults source.old) (S.faults source.new) ⊎ Rose (K.fetch_faults store.old) (K.fetch_faults store.new) }
    ensures sink_fault { result ≡ 6 → Rose (W.faults sink.old) (W.faults sink.new) }
    ensures files { K.files store.new ≡ K.files store.old }
    ensures store { IsCheck (command_of_words (map string_bytes words.now)) ⊎ (store.new ≡ store.old) }
{
    status_of(obey(alloc, words, store, source, sink))
}

#[cfg(test)]
mod tests;
