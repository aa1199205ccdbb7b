//! The system's files.

ghost use Rattle.std.specs.Prelude.{◌≡◌, None};

use crate::names::Names;
use crate::{Failed, Phase, Shelf, Slot, Slots};
use std::fs::{self, Files};
use std::io::{Read, Write};

/// The files of the system, under their paths. It tells nothing of what they hold.
#[derive(Drop)]
pub struct FileShelf<R: Files> {
    rt: R,
    files: Slots<Option<R::File>>,
    phases: Slots<Phase>,
    read_faults: u64,
    write_faults: u64,
    names: Names,
}

impl<R: Files> FileShelf<R> {
    ghost use Rattle.outer_io.specs.Told.{none_opened};

    /// A shelf whose slots are closed, of which no call has failed yet.
    pub fn make(rt: R) -> FileShelf<R>
        ensures openings { (⟦<FileShelf<R> as Shelf>⟧.state result).openings ≡ none_opened }
        ensures read_faults { (⟦<FileShelf<R> as Shelf>⟧.state result).read_faults ≡ 0 }
        ensures write_faults { (⟦<FileShelf<R> as Shelf>⟧.state result).write_faults ≡ 0 }
    {
        FileShelf {
            rt,
            files: Slots {
                settings: None,
                nav: None,
                obs: None,
                station: None,
                rows: None,
                log: None,
            },
            phases: Slots::of_each(Phase::Closed),
            read_faults: 0,
            write_faults: 0,
            names: Names::none(),
        }
    }
}

impl<R: Files> Shelf for FileShelf<R> {
    ghost state = { λ s. record {
      told = None;
      openings = record { phases = s.phases; names = s.names.names };
      read_faults = s.read_faults;
      write_faults = s.write_faults;
    } };

    ghost fails_at = { λ _ _. ⊥ };

    ghost reliable = { λ _ _. ⊥ };

    fn begin(&mut self, name: &str, slot: Slot) -> Result<(), Failed> {
        self.names.add(name.as_bytes());
        match fs::open(&self.rt, name) {
            Ok(file) => {
                self.files.put(slot, Some(file));
                self.phases.put(slot, Phase::Reading);
                Ok(())
            }
            Err(_) => {
                self.files.put(slot, None);
                self.phases.put(slot, Phase::Closed);
                self.read_faults = self.read_faults.saturating_add(1);
                Err(Failed)
            }
        }
    }

    fn read(&mut self, slot: Slot, buf: &mut [u8]) -> Result<usize, Failed> {
        if let Some(file) = self.files.at_mut(slot) {
            if let Ok(count) = file.read(buf) {
                return Ok(count);
            }
        }
        self.read_faults = self.read_faults.saturating_add(1);
        Err(Failed)
    }

    fn create(&mut self, name: &str, slot: Slot) -> Result<(), Failed> {
        self.names.add(name.as_bytes());
        match fs::create(&self.rt, name) {
            Ok(file) => {
                self.files.put(slot, Some(file));
                self.phases.put(slot, Phase::Writing);
                Ok(())
            }
            Err(_) => {
                self.files.put(slot, None);
                self.phases.put(slot, Phase::Closed);
                self.write_faults = self.write_faults.saturating_add(1);
                Err(Failed)
            }
        }
    }

    fn write(&mut self, slot: Slot, bytes: &[u8]) -> Result<usize, Failed> {
        if let Some(file) = self.files.at_mut(slot) {
            match file.write(bytes) {
                Ok(count) if count > 0 || bytes.is_empty() => return Ok(count),
                _ => {}
            }
        }
        self.write_faults = self.write_faults.saturating_add(1);
        Err(Failed)
    }
}
