//! Open handles by session and handle.
ghost use Rattle.std.specs.Prelude.{◌≡◌, ◌≢◌, ◌≤◌, ℕ, OnOk, OnErr, IfOk, IfSome, IfNone, Some};
ghost use Rattle.std.specs.FinMap as map;
ghost use Rattle.slab.specs.Slab.{get, slab_len};
ghost use Rattle.vx_handles.specs.OpenHandles.{add_answer, ino_of, count_on, key_of, slots_on};

use slab::Slab;
use std::alloc::{AllocError, Global};
use std::marker::Model;
use vx_base::{Flag, Ino};

/// The most handles that are open at once, over all sessions.
const MAX_OPEN: usize = 256;

/// Why no handle is added.
#[derive(Clone, Copy, Debug, PartialEq, Eq)]
pub enum HandleRefusal {
    /// The session has that handle open already.
    BadHandle,
    /// As many handles are open as may be.
    TooManyOpen {
        /// The number of open handles, over all sessions.
        open_now: u32,
    },
}

#[derive(Clone, Copy, Debug, Drop)]
struct Entry {
    session: u8,
    handle: u8,
    ino: Ino,
    flag: Flag,
}

/// The open handles of all sessions, each with its file and the flag that it was opened with. At most 256 are open.
#[derive(Debug, Drop)]
pub struct Handles {
    // There is room for all, so that no later call wants memory.
    entries: Slab<Entry>,
}

impl Model for Handles {
    ghost use Rattle.vx_handles.specs.OpenHandles.{OpenHandles, opened, IsKept};
    ghost use Rattle.vx_handles.specs.Codes.{coded_handles};

    ghost Value = { OpenHandles };

    ghost coded = { coded_handles };

    ghost view = { λ a. opened a.entries.slots };

    ghost invariant = { λ a. IsKept a.entries };
}

impl Handles {
    /// No open handle, with the memory for 256.
    pub fn new(alloc: Global) -> Result<Self, AllocError>
        ensures { IfOk result (λ handles. handles ≡ map.empty) }
    {
        let entries = Slab::with_capacity(alloc, MAX_OPEN)?;
        Ok(Handles { entries })
    }

    /// Opens a handle of a session on a file; unchanged where it is refused.
    pub fn add(
        &mut self,
        session: u8,
        handle: u8,
        ino: Ino,
        flag: Flag,
    ) -> Result<(), HandleRefusal>
        ensures answer { result ≡ add_answer self.old (session, handle) }
        ensures added { OnOk result (self.new ≡ map.insert self.old (session, handle) (ino, flag)) }
        ensures unchanged { OnErr result (self.new ≡ self.old) }
    {
        if place_of(&self.entries, session, handle).is_some() {
            return Err(HandleRefusal::BadHandle);
        }
        if self.entries.len() >= MAX_OPEN {
            return Err(HandleRefusal::TooManyOpen { open_now: 256 });
        }
        self.entries.insert_reserved(Entry {
            session,
            handle,
            ino,
            flag,
        });
        Ok(())
    }

    /// The file of a session's handle and the flag that it was opened with, if it is open.
    pub fn find(&self, session: u8, handle: u8) -> Option<(Ino, Flag)>
        ensures { result ≡ map.get self.now (session, handle) }
    {
        match place_of(&self.entries, session, handle) {
            Some((_place, entry)) => Some((entry.ino, entry.flag)),
            None => None,
        }
    }

    /// Closes a session's handle and answers its file, if it was open.
    pub fn remove(&mut self, session: u8, handle: u8) -> Option<Ino>
        ensures answer { result ≡ ino_of (map.get self.old (session, handle)) }
        ensures removed { self.new ≡ map.remove self.old (session, handle) }
    {
        match place_of(&self.entries, session, handle) {
            Some((place, entry)) => {
                self.entries.remove(place);
                Some(entry.ino)
            }
            None => None,
        }
    }

    /// How many handles are open on a file, over all sessions.
    pub fn open_on(&self, ino: Ino) -> u32
        ensures { result ≡ count_on self.now ino }
    {
        count_entries(&self.entries, ino)
    }
}

// The place of a session's handle and what stands there.
fn place_of(entries: &Slab<Entry>, session: u8, handle: u8) -> Option<(usize, Entry)>
    ensures found { IfSome result (λ f. (get entries.now f.0 ≡ Some f.1) × (key_of f.1 ≡ (session, handle))) }
    ensures absent { IfNone result ((place : ℕ) (entry : Entry) → get entries.now place ≡ Some entry → key_of entry ≢ (session, handle)) }
{
    for (place, entry) in entries.iter() {
        if entry.session == session && entry.handle == handle {
            return Some((place, *entry));
        }
    }
    None
}

// How many entries are on a file.
fn count_entries(entries: &Slab<Entry>, ino: Ino) -> u32
    requires { slab_len entries.now ≤ 256 }
    ensures { result ≡ slots_on entries.now.slots ino }
{
    let mut count = 0;
    for (_place, entry) in entries.iter() {
        if entry.ino == ino {
            count += 1;
        }
    }
    count
}
