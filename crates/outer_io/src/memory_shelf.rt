//! A shelf in memory.

ghost use Rattle.std.specs.Prelude.{◌≡◌, ◌<◌, ◌+◌, ◌^◌, ◌↔◌, ℕ, List, [], Contains, length, drop};
ghost use Rattle.std.specs.Prelude.{string_bytes, Option, None, Some, IfOk};
ghost use Rattle.std.specs.FinMap as map;
ghost use Rattle.std.specs.Option.{option_map};
ghost use Rattle.outer_io.specs.Marks.{WritesLog};
ghost use Rattle.outer_io.specs.Slots.{AtEach};
ghost use Rattle.outer_io.specs.Store.{HaveOwnNames, listed, files_in, name_of};
ghost use Rattle.outer_io.specs.Told.{Told, content, files_of, written_of, terms_of, in_pieces};
ghost use Rattle.outer_io.specs.Told.{none_opened};

use crate::failing_calls::FailingCalls;
use crate::marks::Mark;
use crate::memory_files::{FileId, MemoryFiles};
use crate::names::Names;
use crate::pieces::{copy, part};
use crate::{Failed, Phase, Shelf, Slot, Slots};
use grid_model::NoMemory;
use std::alloc::Global;

/// A shelf in memory, which tells everything. It takes no memory after `make`. It fails only
/// where it is asked to, at a `begin` of a missing file, at a `create` of another name than its
/// log's, and where there is no room for any byte of a piece.
#[derive(Drop)]
pub struct MemoryShelf {
    store: MemoryFiles,
    marks: Slots<Mark>,
    failing: FailingCalls,
    // The most bytes that one `read` or `write` moves.
    piece: u32,
    read_faults: u64,
    write_faults: u64,
    names: Names,
    ghost moves: { 0 < piece },
    ghost quiet: { failing.numbers.items ≡ [] → read_faults ≡ 0 },
    ghost writers: { AtEach (WritesLog store) marks },
}

impl MemoryShelf {
    /// A shelf of these files, of which `log` alone can be created and written, with `room` bytes
    /// in all. It fails at the calls of these numbers, counted from 1. A call moves as many bytes
    /// as it can.
    pub fn make(
        alloc: Global,
        files: Vec<(String, Vec<u8>)>,
        log: String,
        room: u64,
        fails: Vec<u64>,
    ) -> Result<MemoryShelf, NoMemory>
        requires { HaveOwnNames files.items }
        ensures files { IfOk result (λ s.
            files_of (⟦<MemoryShelf as Shelf>⟧.state s) ≡ Some (listed files.items)) }
        ensures written { IfOk result (λ s.
            written_of (⟦<MemoryShelf as Shelf>⟧.state s) ≡ Some 0) }
        ensures terms { IfOk result (λ s.
            terms_of (⟦<MemoryShelf as Shelf>⟧.state s)
            ≡ Some (record {
              log = string_bytes log;
              room = room;
              piece = 4294967295;
              fails = fails.items;
            })) }
        ensures openings { IfOk result (λ s.
            (⟦<MemoryShelf as Shelf>⟧.state s).openings ≡ none_opened) }
        ensures read_faults { IfOk result (λ s.
            (⟦<MemoryShelf as Shelf>⟧.state s).read_faults ≡ 0) }
        ensures write_faults { IfOk result (λ s.
            (⟦<MemoryShelf as Shelf>⟧.state s).write_faults ≡ 0) }
        ensures fails { IfOk result (λ s. (k : ℕ) → k < 2 ^ 64
            → ⟦<MemoryShelf as Shelf>⟧.fails_at s k ↔ Contains fails.items k) }
        ensures reads { IfOk result (λ s.
            ⟦<MemoryShelf as Shelf>⟧.reliable s None ↔ (fails.items ≡ [])) }
        ensures writes { IfOk result (λ s.
            ⟦<MemoryShelf as Shelf>⟧.reliable s (Some (string_bytes log))
            ↔ ((fails.items ≡ []) × (0 < room))) }
    {
        Ok(MemoryShelf {
            store: MemoryFiles::make(alloc, files, log, room)?,
            marks: Slots::of_each(Mark::at_start(FileId::Log, Phase::Closed)),
            failing: FailingCalls::new(fails),
            piece: u32::MAX,
            read_faults: 0,
            write_faults: 0,
            names: Names::none(),
        })
    }

    /// The bytes of the named file, none exactly where it isn't there.
    pub fn file(&self, name: &str) -> Option<&[u8]>
        ensures { Some (option_map (λ bytes. bytes.now) result)
            ≡ option_map (λ files. map.get files name.now)
            (files_of (⟦<MemoryShelf as Shelf>⟧.state self.now)) }
    {
        self.store.file(name)
    }

    /// Lets one `read` or `write` move at most so many bytes from now on.
    pub fn set_piece(&mut self, piece: u32)
        requires { 0 < piece }
        ensures told { (⟦<MemoryShelf as Shelf>⟧.state self.new).told
            ≡ option_map (in_pieces piece) (⟦<MemoryShelf as Shelf>⟧.state self.old).told }
        ensures openings { (⟦<MemoryShelf as Shelf>⟧.state self.new).openings
            ≡ (⟦<MemoryShelf as Shelf>⟧.state self.old).openings }
        ensures read_faults { (⟦<MemoryShelf as Shelf>⟧.state self.new).read_faults
            ≡ (⟦<MemoryShelf as Shelf>⟧.state self.old).read_faults }
        ensures write_faults { (⟦<MemoryShelf as Shelf>⟧.state self.new).write_faults
            ≡ (⟦<MemoryShelf as Shelf>⟧.state self.old).write_faults }
        ensures fails { (k : ℕ) → ⟦<MemoryShelf as Shelf>⟧.fails_at self.new k
            ↔ ⟦<MemoryShelf as Shelf>⟧.fails_at self.old k }
        ensures reliable { (log : Option (List ℕ)) → ⟦<MemoryShelf as Shelf>⟧.reliable self.new log
            ↔ ⟦<MemoryShelf as Shelf>⟧.reliable self.old log }
    {
        self.piece = piece;
    }

    /// How many bytes may still be written. A shelf of which no call is to fail is reliable, and
    /// while there is room its log is too.
    pub fn room(&self) -> u64
        ensures left { (t : Told) → (⟦<MemoryShelf as Shelf>⟧.state self.now).told ≡ Some t
            → t.written + result ≡ t.terms.room }
        ensures reliable { (t : Told) → (⟦<MemoryShelf as Shelf>⟧.state self.now).told ≡ Some t
            → t.terms.fails ≡ [] → ⟦<MemoryShelf as Shelf>⟧.reliable self.now None
            × (0 < result → ⟦<MemoryShelf as Shelf>⟧.reliable self.now (Some t.terms.log)) }
    {
        self.store.room()
    }
}

// What is left to read at the mark.
fn left(store: &MemoryFiles, mark: Mark) -> &[u8]
    ensures bytes { result.now
        ≡ drop mark.from (content (files_in store.now) (name_of store.now mark.file)) }
    ensures fits { mark.from + length result.now < 2 ^ 64 }
{
    match store.file(store.name_of(mark.file)) {
        Some(bytes) => {
            if mark.from < bytes.len() {
                &bytes[mark.from..]
            } else {
                &[]
            }
        }
        None => &[],
    }
}

impl Shelf for MemoryShelf {
    ghost use Rattle.outer_io.specs.Failing.{IsListed};
    ghost use Rattle.outer_io.specs.Marks.{state_of};
    ghost use Rattle.outer_io.specs.Store.{HasRoomFor};

    ghost state = { λ s.
        state_of s.piece s.failing.numbers.items s.store s.marks s.names.names s.read_faults
        s.write_faults };

    ghost fails_at = { λ s k. IsListed s.failing k };

    ghost reliable = { λ s log. (s.failing.numbers.items ≡ []) × HasRoomFor s.store log };

    fn begin(&mut self, name: &str, slot: Slot) -> Result<(), Failed> {
        self.names.add(name.as_bytes());
        let fails = self.failing.next_fails();
        let mark = *self.marks.at(slot);
        let Some(file) = self.store.id_of(name) else {
            self.marks.put(slot, mark.closed());
            return Err(Failed);
        };
        if fails {
            self.read_faults = self.read_faults.saturating_add(1);
            self.marks.put(slot, mark.closed());
            return Err(Failed);
        }
        self.marks.put(slot, Mark::at_start(file, Phase::Reading));
        Ok(())
    }

    fn read(&mut self, slot: Slot, buf: &mut [u8]) -> Result<usize, Failed> {
        if self.failing.next_fails() {
            self.read_faults = self.read_faults.saturating_add(1);
            return Err(Failed);
        }
        let mark = *self.marks.at(slot);
        let count = copy(left(&self.store, mark), buf, self.piece as usize);
        self.marks.put(slot, mark.moved(count));
        Ok(count)
    }

    fn create(&mut self, name: &str, slot: Slot) -> Result<(), Failed> {
        self.names.add(name.as_bytes());
        let fails = self.failing.next_fails();
        if fails || !self.store.is_log(name) {
            self.write_faults = self.write_faults.saturating_add(1);
            let mark = *self.marks.at(slot);
            self.marks.put(slot, mark.closed());
            return Err(Failed);
        }
        self.store.create_log();
        self.marks
            .put(slot, Mark::at_start(FileId::Log, Phase::Writing));
        Ok(())
    }

    fn write(&mut self, slot: Slot, bytes: &[u8]) -> Result<usize, Failed> {
        if self.failing.next_fails() {
            self.write_faults = self.write_faults.saturating_add(1);
            return Err(Failed);
        }
        if bytes.is_empty() {
            return Ok(0);
        }
        let room = self.store.room();
        if room == 0 {
            self.write_faults = self.write_faults.saturating_add(1);
            return Err(Failed);
        }
        let mark = *self.marks.at(slot);
        let count = part(bytes.len(), room, self.piece as usize);
        self.store.append(&bytes[..count]);
        self.marks.put(slot, mark.moved(count));
        Ok(count)
    }
}
