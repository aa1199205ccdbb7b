//! The files of a shelf in memory. The log alone is written, in a buffer of its own.

ghost use Rattle.std.specs.Prelude.{◌≡◌, ◌≤◌, ◌<◌, ◌+◌, ◌-◌, ◌^◌, [], true, false, Some};
ghost use Rattle.std.specs.Prelude.{None, length, slice_get, string_bytes, vec_len, vec_capacity};
ghost use Rattle.std.specs.Prelude.{is_some, IfOk, IfSome, IfNone};
ghost use Rattle.std.specs.FinMap as map;
ghost use Rattle.std.specs.Option.{option_map};
ghost use Rattle.outer_io.specs.Store.{NamedBytes, Store, listed, files_in, name_of, grown, log_if};

use std::alloc::{AllocError, Global};
use std::marker::Model;

/// A file: one that was handed over, by its place, or the log.
#[derive(Clone, Copy, Debug)]
pub enum FileId {
    Listed(usize),
    Log,
}

/// The files that were handed over, and the log. Once it was created, the log takes the place of
/// a file of its name. Room that was used isn't given back, so `room` bytes of memory suffice.
#[derive(Drop)]
pub struct MemoryFiles {
    files: Vec<(String, Vec<u8>)>,
    log_name: String,
    log: Vec<u8>,
    // Whether the log takes the place of a file of its name.
    is_created: bool,
    room: u64,
    written: u64,
}

impl Model for MemoryFiles {
    ghost Value = { Store };

    ghost view = { λ m. record {
      files = m.files.items;
      log_name = string_bytes m.log_name;
      log = log_if m.is_created m.log.items;
      room = m.room;
      written = m.written;
    } };

    ghost invariant = { λ m.
        (m.written + m.room ≤ vec_capacity m.log) × (vec_len m.log ≤ m.written) };
}

impl MemoryFiles {
    /// These files, and a log that isn't created yet, with room for so many bytes.
    pub fn make(
        alloc: Global,
        files: Vec<(String, Vec<u8>)>,
        log_name: String,
        room: u64,
    ) -> Result<MemoryFiles, AllocError>
        ensures { IfOk result (λ store. store ≡ record {
          files = files.items;
          log_name = string_bytes log_name;
          log = None;
          room = room;
          written = 0;
        }) }
    {
        Ok(MemoryFiles {
            files,
            log_name,
            log: Vec::with_capacity(alloc, room as usize)?,
            is_created: false,
            room,
            written: 0,
        })
    }

    /// How many bytes may still be written.
    pub fn room(&self) -> u64
        ensures room { result ≡ self.now.room }
        ensures fits { self.now.written + result < 2 ^ 64 }
    {
        self.room
    }

    /// The bytes of the named file.
    pub fn file(&self, name: &str) -> Option<&[u8]>
        ensures { option_map (λ bytes. bytes.now) result ≡ map.get (files_in self.now) name.now }
    {
        if self.is_covered(name) {
            return Some(&self.log);
        }
        match find(&self.files, name) {
            Some(i) => Some(&self.files[i].1),
            None => None,
        }
    }

    /// The id of the named file.
    pub fn id_of(&self, name: &str) -> Option<FileId>
        ensures named { IfSome result (λ id. name_of self.now id ≡ name.now) }
        ensures there { is_some result ≡ map.contains_key (files_in self.now) name.now }
    {
        if self.is_covered(name) {
            return Some(FileId::Log);
        }
        match find(&self.files, name) {
            Some(i) => Some(FileId::Listed(i)),
            None => None,
        }
    }

    /// The name of the file.
    pub fn name_of(&self, id: FileId) -> &str
        ensures { result.now ≡ name_of self.now id }
    {
        match id {
            FileId::Listed(i) => {
                if i < self.files.len() {
                    self.files[i].0.as_str()
                } else {
                    ""
                }
            }
            FileId::Log => self.log_name.as_str(),
        }
    }

    /// Whether the log has this name.
    pub fn is_log(&self, name: &str) -> bool
        ensures same { result ≡ true → name.now ≡ self.now.log_name }
        ensures other { name.now ≡ self.now.log_name → result ≡ true }
    {
        name == self.log_name.as_str()
    }

    // Whether the log is created and has this name.
    fn is_covered(&self, name: &str) -> bool
        ensures log { result ≡ true → (name.now ≡ self.now.log_name)
            × (map.get (files_in self.now) name.now ≡ self.now.log) }
        ensures created { result ≡ true → is_some self.now.log ≡ true }
        ensures other { result ≡ false
            → map.get (files_in self.now) name.now ≡ map.get (listed self.now.files) name.now }
    {
        self.is_created && self.is_log(name)
    }

    /// Makes the log empty.
    pub fn create_log(&mut self)
        ensures { self.new ≡ record self.old { log = Some [] } }
    {
        self.log.clear();
        self.is_created = true;
    }

    /// Appends the bytes to the log.
    pub fn append(&mut self, bytes: &[u8])
        requires created { is_some self.old.log ≡ true }
        requires room { length bytes.now ≤ self.old.room }
        ensures { self.new ≡ grown self.old bytes.now }
    {
        match self.log.extend_from_slice(bytes) {
            Ok(()) => {
                self.room -= bytes.len() as u64;
                self.written += bytes.len() as u64;
            }
            Err(_) => unreachable!(),
        }
    }
}

// The first file of this name.
fn find(files: &[(String, Vec<u8>)], name: &str) -> Option<usize>
    ensures bound { IfSome result (λ i. i < length files.now) }
    ensures found { IfSome result (λ i. (f : NamedBytes)
        × (slice_get files.now i ≡ Some f) × (string_bytes f.0 ≡ name.now)
        × (map.get (listed files.now) name.now ≡ Some f.1.items)) }
    ensures none { IfNone result (map.get (listed files.now) name.now ≡ None) }
{
    for (i, file) in files.iter().enumerate() {
        if name == file.0.as_str() {
            return Some(i);
        }
    }
    None
}
