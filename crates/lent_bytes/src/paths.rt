// Names and paths as parts of bytes: each name is its length and its bytes, a path is its names.
ghost use Rattle.std.specs.Prelude.{◌≡◌, ◌<◌, true, length, Decides};
ghost use Rattle.model.specs.Tree.{path_ok};
ghost use Rattle.lent_bytes.specs.Paths.{path_of, Spells, LastAt};

// A path: its names one behind the other, each with its length in front; no names is the top.
#[derive(Clone, Copy)]
pub struct Path<'a> {
    pub names: &'a [u8],
    ghost spells: { Spells names.now },
}

// Do bytes spell a path whose names are in range.
pub fn check_path(path: &[u8]) -> bool
    ensures { Decides result (Spells path.now × (path_ok (path_of path.now) ≡ true)) }
{
    let mut at = 0;
    let mut count = 0u8;
    // kept: the bytes may spell no path: an iterator over names would have to say as well whether they broke off, and be no plainer
    while at < path.len() {
        let n = path[at] as usize;
        if n == 0 || n > 64 || n >= path.len() - at || count >= 16 {
            return false;
        }
        at += 1 + n;
        count += 1;
    }
    count > 0
}

impl<'a> Path<'a> {
    // Are its names in range.
    pub fn is_ok(self) -> bool
        ensures { result ≡ path_ok (path_of self.entry.names.now) }
    {
        check_path(self.names)
    }

    // Where its last name begins: what is before it is the path above.
    pub fn last_name(self) -> usize
        requires { 0 < length self.names.now }
        ensures { LastAt self.entry.names.now result }
    {
        let names = self.names;
        let mut at = 0;
        let mut end = 1 + names[0] as usize;
        // kept: the place of the last name is asked for, and names from an iterator have none: it would be counted back from the end
        while end < names.len() {
            at = end;
            end = at + 1 + names[at] as usize;
        }
        at
    }
}
