// Bytes of a file that were read and not taken yet. They may be secret, so they stand in memory of a fixed size, which is wiped whole.
ghost use Rattle.std.specs.Prelude.{◌≡◌, ◌<◌, ◌≤◌, ◌↔◌, [], length, drop, IfSome, IsTrue, IsSome, OnOk, OnErr};
ghost use Rattle.std.specs.Io.{StartsWith};
ghost use Rattle.std.specs.Io.KnownBytes.{Consumes, IsAtEnd};

use crate::read::{read_full, wipe};
use std::io;
use std::io::Read;
use std::marker::Model;

// It uses so many bytes of its room, and the first of them were read, so many.
#[derive(Drop)]
pub struct Window<const N: usize> {
    room: [u8; N],
    size: usize,
    held: usize,
}

impl<const N: usize> Model for Window<N> {
    ghost use Rattle.std.specs.Prelude.{◌≡◌, ◌≤◌, length, take};
    ghost use Rattle.files.specs.Window.{Held};

    ghost Value = { Held };

    ghost view = { λ w. record { bytes = take w.held w.room; size = w.size } };

    ghost invariant = { λ w. (w.held ≤ w.size) × (w.size ≤ N) × (length w.room ≡ N) };
}

impl<const N: usize> Window<N> {
    // None where it would be larger than its room.
    pub fn new(size: usize) -> Option<Window<N>>
        ensures room { IsSome result ↔ (size ≤ N) }
        ensures empty { IfSome result (λ w. (w.bytes ≡ []) × (w.size ≡ size)) }
    {
        if size > N {
            return None;
        }
        let room = [0; N];
        Some(Window {
            room,
            size,
            held: 0,
        })
    }

    // The bytes that were read and not taken yet.
    pub fn held(&self) -> &[u8]
        ensures value { result.now ≡ self.now.bytes }
    {
        &self.room[..self.held]
    }

    pub fn is_full(&self) -> bool
        ensures value { IsTrue result ↔ (length self.now.bytes ≡ self.now.size) }
    {
        self.held == self.size
    }

    // Reads on behind the bytes that it holds, until it is full or nothing more comes.
    pub fn fill<R: Read>(&mut self, from: &mut R) -> io::Result<()>
        ensures front { StartsWith self.new.bytes self.old.bytes }
        ensures bytes { OnOk result (Consumes (R.remaining from.old) (R.remaining from.new) (drop (length self.old.bytes) self.new.bytes)) }
        ensures end { OnOk result (length self.new.bytes < self.new.size → IsAtEnd (R.remaining from.new)) }
        ensures err { OnErr result (self.new.bytes ≡ self.old.bytes) }
        ensures size { self.new.size ≡ self.old.size }
    {
        let room = &mut self.room[..];
        let n = read_full(from, &mut room[self.held..self.size])?;
        self.held += n;
        Ok(())
    }

    // Takes the first bytes, as many as there are of so many, and moves the others to the front.
    pub fn take(&mut self, n: usize)
        ensures rest { self.new.bytes ≡ drop n self.old.bytes }
        ensures size { self.new.size ≡ self.old.size }
    {
        let n = n.min(self.held);
        self.room.copy_within(n..self.held, 0);
        self.held -= n;
    }

    pub fn wipe(&mut self, rt: &HostRuntime)
        ensures empty { self.new.bytes ≡ [] }
        ensures size { self.new.size ≡ self.old.size }
    {
        wipe(rt, &mut self.room);
        self.held = 0;
    }
}
