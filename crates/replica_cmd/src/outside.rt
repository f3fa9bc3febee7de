ghost use Rattle.std.specs.Prelude.{◌≡◌, ℕ, ◌+◌, ◌<◌, ◌≤◌, ◌⊎◌, IfOk, IfSome, OnOk, OnErr, IsErrOf, length, string_bytes};
ghost use Rattle.std.specs.Option.{option_map};
ghost use Rattle.lab_store.specs.Stream.{Appends, AppendsPart, Rose};
ghost use Rattle.lab_store.specs.Store.{Finds, IsLonger};
ghost use Rattle.replica_cmd.specs.Reading.{most_bytes, most_file_bytes, IsScript, IsTooLong};

use crate::stop::Stop;
use lab_model::FileName;
use lab_store::{Sink, Source, Store, StoreError};
use std::alloc::Global;

/// The most bytes that a script may have.
const MOST_BYTES: usize = 32_768;

/// The most bytes that a file may have.
const MOST_FILE_BYTES: u64 = 67_108_864;

/// How many bytes are read at once.
const PIECE: usize = 4_096;

/// Reads a source to its end, or until it has shown more bytes than a script may have.
pub(crate) fn script_of<S: Source>(alloc: Global, source: &mut S) -> Result<Vec<u8>, Stop>
    ensures whole { IfOk result (λ script. IsScript (S.left source.old) script.items) }
    ensures short { IfOk result (λ script. length script.items ≤ most_bytes) }
    ensures long { IsErrOf result Stop.Long → IsTooLong (S.left source.old) }
    ensures fault { IsErrOf result Stop.Source → Rose (S.faults source.old) (S.faults source.new) }
    ensures not_the_sink { IsErrOf result Stop.Sink → ⊥ }
    ensures not_the_store { IsErrOf result Stop.Store → ⊥ }
{
    let mut script = Vec::new(alloc);
    let mut piece = [0u8; PIECE];
    while script.len() <= MOST_BYTES {
        let wanted = PIECE.min(MOST_BYTES + 1 - script.len());
        let count = match source.take(&mut piece[..wanted]) {
            Ok(count) => count as usize,
            Err(_) => return Err(Stop::Source),
        };
        if count == 0 {
            return Ok(script);
        }
        script.extend_from_slice(&piece[..count])?;
    }
    Err(Stop::Long)
}

/// The bytes of the file of this name, where there is one.
pub(crate) fn file_of<K: Store>(
    alloc: Global,
    store: &mut K,
    name: &FileName,
) -> Result<Option<Vec<u8>>, Stop>
    ensures found { IfOk result (λ o. Finds (K.files store.old) name.now (option_map (λ v. v.items) o)) }
    ensures short { IfOk result (λ o. IfSome o (λ v. length v.items ≤ most_file_bytes)) }
    ensures long { IsErrOf result Stop.Long → IsLonger (K.files store.old) name.now most_file_bytes }
    ensures fault { IsErrOf result Stop.Store → Rose (K.fetch_faults store.old) (K.fetch_faults store.new) }
    ensures files { K.files store.new ≡ K.files store.old }
    ensures no_others { OnErr result ((result ≡ Err Stop.Store) ⊎ ((result ≡ Err Stop.Long) ⊎ (result ≡ Err Stop.NoMemory))) }
{
    match store.fetch(alloc, name.as_str(), MOST_FILE_BYTES) {
        Ok(found) => Ok(found),
        Err(StoreError::Failed) => Err(Stop::Store),
        Err(StoreError::Long) => Err(Stop::Long),
        Err(StoreError::NoMemory) => Err(Stop::NoMemory),
    }
}

/// Makes room for the text, and puts it in one piece.
pub(crate) fn put_text<W: Sink>(alloc: Global, sink: &mut W, text: &str) -> Result<(), Stop>
    ensures put { OnOk result (Appends (W.told sink.old) (W.told sink.new) text.now) }
    ensures calm { OnOk result (W.faults sink.new ≡ W.faults sink.old) }
    ensures part { IsErrOf result Stop.Sink → AppendsPart (W.told sink.old) (W.told sink.new) text.now }
    ensures fault { IsErrOf result Stop.Sink → Rose (W.faults sink.old) (W.faults sink.new) }
    ensures nothing { IsErrOf result Stop.NoMemory → W.told sink.new ≡ W.told sink.old }
    ensures no_others { OnErr result ((result ≡ Err Stop.Sink) ⊎ (result ≡ Err Stop.NoMemory)) }
{
    sink.room(alloc, text.len() as u64)?;
    match sink.put(text.as_bytes()) {
        Ok(()) => Ok(()),
        Err(_) => Err(Stop::Sink),
    }
}
