//! The input, through a window that moves: its bytes from the first that is not shown yet on.
ghost use Rattle.std.specs.Prelude.{◌≡◌, ◌==◌, ◌+◌, ◌≤◌, [], length, drop, IfOk, OnErr};
ghost use Rattle.std.specs.Io.{StartsWith};
ghost use Rattle.std.specs.Io.Iter.{u64_saturate};

use std::io;
use std::io::Read;
use std::marker::Model;

/// How many bytes the window has at most: 512 KiB on the stack, which with the table and the output leaves a quarter of 1 MiB.
pub(crate) const SIZE: usize = 524288;

/// The window: the first `used` of `bytes`, which stand in the input from `front` on.
#[derive(Drop)]
pub(crate) struct Window {
    bytes: [u8; SIZE],
    used: usize,
    front: u64,
}

impl Model for Window {
    ghost use Rattle.std.specs.Prelude.{◌≤◌, take};
    ghost use Rattle.show.specs.Windows.{Sight};

    ghost Value = { Sight };

    ghost view = { λ w. record { front = w.front; bytes = take w.used w.bytes } };

    ghost invariant = { λ w. w.used ≤ 524288 };
}

impl Window {
    /// At the front of the input, with no byte yet.
    pub(crate) fn new() -> Window
        ensures { result ≡ record { front = 0; bytes = [] } }
    {
        Window {
            bytes: [0; SIZE],
            used: 0,
            front: 0,
        }
    }

    /// The bytes that it has.
    pub(crate) fn bytes(&self) -> &[u8]
        ensures { result.now ≡ self.now.bytes }
    {
        &self.bytes[..self.used]
    }

    /// The offset of its first byte in the input.
    pub(crate) fn front(&self) -> u64
        ensures { result ≡ self.now.front }
    {
        self.front
    }

    /// The offset behind its last byte.
    pub(crate) fn end(&self) -> u64
        ensures { result ≡ u64_saturate (self.now.front + length self.now.bytes) }
    {
        self.front.saturating_add(self.used as u64)
    }

    pub(crate) fn is_full(&self) -> bool
        ensures { result ≡ (length self.now.bytes == SIZE) }
    {
        self.used == SIZE
    }

    /// One read behind what it has: how many bytes came, none at the end of the input.
    pub(crate) fn fill<R: Read>(&mut self, input: &mut R) -> io::Result<usize>
        ensures stays { self.new.front ≡ self.old.front }
        ensures keeps { StartsWith self.new.bytes self.old.bytes }
        ensures more { IfOk result (λ n. length self.new.bytes ≡ length self.old.bytes + n) }
        ensures unread { OnErr result (self.new ≡ self.old) }
    {
        let n = input.read(&mut self.bytes[self.used..])?;
        self.used += n;
        Ok(n)
    }

    /// Moves on behind the first n bytes.
    pub(crate) fn pass(&mut self, n: usize)
        requires { n ≤ length self.old.bytes }
        ensures moves { self.new.front ≡ u64_saturate (self.old.front + n) }
        ensures rest { self.new.bytes ≡ drop n self.old.bytes }
    {
        self.bytes.copy_within(n..self.used, 0);
        self.used -= n;
        self.front = self.front.saturating_add(n as u64);
    }
}
