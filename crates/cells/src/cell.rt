// One entry's cell: its head, then its path, then its value.
ghost use Rattle.std.specs.Prelude.{◌≡◌, ◌≤◌, true, length};
ghost use Rattle.model.specs.Tree.{at, is_kid, path_ok};
ghost use Rattle.lent_bytes.specs.Numbers.{be32};
ghost use Rattle.lent_bytes.specs.Paths.{path_of};
ghost use Rattle.cells.specs.Layout.{head_of, entry_of, path_part, Formed};
ghost use Rattle.cells.specs.Props.{Formed-prop};

use lent_bytes::counts::{Count, Session, Version};
use lent_bytes::numbers::{read_u32, read_u64};
use lent_bytes::paths::Path;

// What stands before an entry's path and value.
#[derive(Clone, Copy)]
pub struct Head {
    pub value_len: u32,
    pub path_len: u32,
    pub version: Version,
    pub made: Count,
    pub changed: Count,
    pub kids: Count,
    pub owner: Session,
}

pub fn read_head(cell: &[u8]) -> Head
    requires { 48 ≤ length cell.now }
    ensures { result ≡ head_of cell.now }
{
    Head {
        value_len: read_u32(cell, 0),
        path_len: read_u32(cell, 4),
        version: Version(read_u64(cell, 8)),
        made: Count(read_u64(cell, 16)),
        changed: Count(read_u64(cell, 24)),
        kids: Count(read_u64(cell, 32)),
        owner: Session(read_u64(cell, 40)),
    }
}

// Bytes that are an entry.
#[derive(Clone, Copy)]
pub struct Cell<'a> {
    pub bytes: &'a [u8],
    ghost formed: { Formed bytes.now } by { Formed-prop bytes.now },
}

impl<'a> Cell<'a> {
    pub fn head(self) -> Head
        ensures { result ≡ head_of self.entry.bytes.now }
    {
        read_head(self.bytes)
    }

    // The part of a cell that is the entry's path.
    pub fn path(self) -> Path<'a>
        ensures value { result.names.now ≡ path_part self.entry.bytes.now }
        ensures len { length result.names.now ≡ be32 self.entry.bytes.now 4 }
        ensures ok { path_ok (path_of result.names.now) ≡ true }
    {
        let n = read_u32(self.bytes, 4) as usize;
        Path {
            names: &self.bytes[48..48 + n],
        }
    }

    // The part of a cell that is the entry's value: all behind its path.
    pub fn value(self) -> &'a [u8]
        ensures value { result.now ≡ (entry_of self.entry.bytes.now).value }
        ensures few { length result.now ≤ 65536 }
    {
        let path = read_u32(self.bytes, 4) as usize;
        &self.bytes[48 + path..]
    }

    // Is this the entry of that path.
    pub fn is_at(self, path: Path<'_>) -> bool
        ensures { result ≡ at (path_of path.entry.names.now) (entry_of self.entry.bytes.now) }
    {
        self.path().names == path.names
    }

    // Does the entry stand directly under that path.
    pub fn is_kid(self, path: Path<'_>) -> bool
        ensures { result ≡ is_kid (path_of path.entry.names.now) (entry_of self.entry.bytes.now) }
    {
        // kept: the answer is a bool, so `?` can't hand on that its path is shorter. What is behind is looked at first: few entries stand one name below, and only of those the front is compared; `strip_prefix` would compare it of each
        let Some((front, rest)) = self.path().names.split_at_checked(path.names.len()) else {
            return false;
        };
        match rest.split_first() {
            Some((len, name)) => *len as usize == name.len() && front == path.names,
            None => false,
        }
    }
}
