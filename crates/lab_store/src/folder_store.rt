ghost use Rattle.std.specs.Prelude.{◌≡◌, ◌≢◌, None, false};
ghost use Rattle.std.specs.IoError.{error_kind};
ghost use Rattle.lab_store.specs.Store.{OnLong};

use crate::store::{Store, StoreError};
use std::alloc::Global;
use std::fs::{File, OpenFile};
use std::io::{ErrorKind, Read, Write};
use std::rt::Files;
use std::{fs, io};

/// The files of the current folder. It tells nothing of what they hold: what the folder gives and keeps is outside of what
/// can be proved. Each read and each write that fails counts as a fault of its kind.
#[derive(Drop)]
pub struct FolderStore<R> {
    files: R,
    pub fetch_faults: u64,
    pub replace_faults: u64,
}

impl<R: Files> FolderStore<R> {
    /// The store over these files, as `&rt` for those of the machine.
    pub fn of(files: R) -> FolderStore<R>
        ensures files { result.files ≡ files }
        ensures start { (result.fetch_faults ≡ 0) × (result.replace_faults ≡ 0) }
    {
        FolderStore {
            files,
            fetch_faults: 0,
            replace_faults: 0,
        }
    }
}

/// The bytes of the file of this name, of a longer one the first `most`, or None where there is no such file.
fn front_of<R: Files>(
    files: &R,
    alloc: Global,
    name: &str,
    most: u64,
) -> io::Result<Option<Vec<u8>>> {
    let file = match fs::open(files, name) {
        Ok(file) => file,
        Err(error) if error.kind() == ErrorKind::NotFound => return Ok(None),
        Err(error) => return Err(error),
    };
    let mut bytes = Vec::new(alloc);
    file.take(most).read_to_end(&mut bytes)?;
    Ok(Some(bytes))
}

/// Writes the bytes to a file beside the named one, and gives it that name once all of them are there. So the name holds
/// the old bytes or the new ones, and never a part.
fn put_whole<R: Files>(files: &R, alloc: Global, name: &str, bytes: &[u8]) -> io::Result<()> {
    let beside = format!(in alloc; ".{name}.new")?;
    let mut file = File::create(files, beside.as_str())?;
    file.write_all(bytes)?;
    file.sync_all()?;
    fs::rename(files, beside.as_str(), name)
}

/// What an error of the system is to the store.
fn error_of(error: &io::Error) -> StoreError
    ensures no_memory { error_kind error.now ≡ ErrorKind.OutOfMemory → result ≡ StoreError.NoMemory }
    ensures failed { error_kind error.now ≢ ErrorKind.OutOfMemory → result ≡ StoreError.Failed }
    ensures never_long { OnLong result ⊥ }
{
    match error.kind() {
        ErrorKind::OutOfMemory => StoreError::NoMemory,
        _ => StoreError::Failed,
    }
}

impl<R: Files> Store for FolderStore<R> {
    ghost files = { λ _. None };

    ghost fetch_faults = { λ s. s.fetch_faults };

    ghost replace_faults = { λ s. s.replace_faults };

    ghost unfailing = { λ _. false };

    fn fetch(
        &mut self,
        alloc: Global,
        name: &str,
        most: u64,
    ) -> Result<Option<Vec<u8>>, StoreError> {
        match front_of(&self.files, alloc, name, most.saturating_add(1)) {
            Ok(Some(bytes)) if bytes.len() as u64 > most => Err(StoreError::Long),
            Ok(found) => Ok(found),
            Err(error) => {
                let error = error_of(&error);
                if error == StoreError::Failed {
                    self.fetch_faults = self.fetch_faults.saturating_add(1);
                }
                Err(error)
            }
        }
    }

    fn replace(&mut self, alloc: Global, name: &str, bytes: &[u8]) -> Result<(), StoreError> {
        match put_whole(&self.files, alloc, name, bytes) {
            Ok(()) => Ok(()),
            Err(error) => {
                let error = error_of(&error);
                if error == StoreError::Failed {
                    self.replace_faults = self.replace_faults.saturating_add(1);
                }
                Err(error)
            }
        }
    }

    ghost names_differ = { λ _. tt };
}
