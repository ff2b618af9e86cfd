// What stands before the entries of a tree: its counts and its sessions.
ghost use Rattle.std.specs.Prelude.{◌≡◌, ◌+◌, ◌*◌, ◌≤◌, length};
ghost use Rattle.lent_bytes.specs.Numbers.{be32, be64};
ghost use Rattle.cells.specs.Layout.{begins_at, sessions_in};

use lent_bytes::counts::{Count, Session};
use lent_bytes::numbers::{read_u32, read_u64};

// Bytes that are as long as their count of sessions says.
#[derive(Clone, Copy)]
pub struct Prelude<'a> {
    pub bytes: &'a [u8],
    ghost long: { length bytes.now ≡ begins_at bytes.now },
}

impl<'a> Prelude<'a> {
    ghost use Rattle.cells.specs.Walks.{sessions_left};

    // How many changes the tree has had.
    pub fn changes(self) -> Count
        ensures { result.0 ≡ be64 self.entry.bytes.now 0 }
    {
        Count(read_u64(self.bytes, 0))
    }

    // How many entries were ever made at its top.
    pub fn top(self) -> Count
        ensures { result.0 ≡ be64 self.entry.bytes.now 8 }
    {
        Count(read_u64(self.bytes, 8))
    }

    // The number of the session that was opened last.
    pub fn last_session(self) -> Session
        ensures { result.0 ≡ be64 self.entry.bytes.now 16 }
    {
        Session(read_u64(self.bytes, 16))
    }

    // How many sessions are open.
    pub fn session_count(self) -> u32
        ensures { result ≡ be32 self.entry.bytes.now 24 }
    {
        read_u32(self.bytes, 24)
    }

    // The sessions that are open, in the order of opening.
    pub fn sessions(self) -> Sessions<'a>
        ensures { sessions_left result ≡ sessions_in self.entry.bytes.now }
    {
        Sessions {
            bytes: self.bytes,
            at: 28,
            left: self.session_count() as usize,
        }
    }
}

// The sessions that are still to come.
#[derive(Drop)]
pub struct Sessions<'a> {
    bytes: &'a [u8],
    at: usize,
    left: usize,
    ghost inside: { at + 8 * left ≤ length bytes.now },
}

impl<'a> Iterator for Sessions<'a> {
    ghost use Rattle.std.specs.Iterator.{item_count, YieldsFirstBy};
    ghost use Rattle.cells.specs.Walks.{number_of, sessions_left};

    type Item = Session;

    ghost next_gives = { YieldsFirstBy number_of sessions_left };

    ghost remaining = { item_count sessions_left };

    fn next(&mut self) -> Option<Session> {
        if self.left == 0 {
            return None;
        }
        let session = Session(read_u64(self.bytes, self.at));
        self.left -= 1;
        self.at += 8;
        Some(session)
    }
}
