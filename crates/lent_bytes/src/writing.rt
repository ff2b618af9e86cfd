// Writing at the end of what a buffer has so far.
ghost use Rattle.std.specs.Prelude.{◌≡◌, ◌+◌, ◌≤◌, length};
ghost use Rattle.lent_bytes.specs.Numbers.{be4, be8};
ghost use Rattle.lent_bytes.specs.Writing.{Added};

// A buffer and how much of it was written, from its start on.
#[derive(Drop)]
pub struct Writer<'b> {
    pub out: &'b mut [u8],
    pub used: usize,
    ghost inside: { used ≤ length out.now },
}

impl<'b> Writer<'b> {
    ghost use Rattle.lent_bytes.specs.Writers.{Wrote};

    // Nothing is written yet.
    pub fn new(out: &'b mut [u8]) -> Self
        ensures used { result.used ≡ 0 }
        ensures same { result.out.ghost_name ≡ out.entry.ghost_name }
        ensures now { result.out.now ≡ out.entry.now }
    {
        Writer { out, used: 0 }
    }

    // Writes bytes.
    pub fn bytes(&mut self, src: &[u8])
        requires { self.old.used + length src.now ≤ length self.old.out.now }
        ensures used { self.new.used ≡ self.old.used + length src.now }
        ensures wrote { Wrote self.old src.now self.new }
    {
        let end = self.used + src.len();
        let part = &mut self.out[self.used..end];
        part.copy_from_slice(src);
        self.used = end;
    }

    // Writes a number as four bytes.
    pub fn u32(&mut self, word: u32)
        requires { self.old.used + 4 ≤ length self.old.out.now }
        ensures used { self.new.used ≡ self.old.used + 4 }
        ensures wrote { Wrote self.old (be4 word) self.new }
    {
        self.bytes(&word.to_be_bytes());
    }

    // Writes a number as eight bytes.
    pub fn u64(&mut self, number: u64)
        requires { self.old.used + 8 ≤ length self.old.out.now }
        ensures used { self.new.used ≡ self.old.used + 8 }
        ensures wrote { Wrote self.old (be8 number) self.new }
    {
        self.bytes(&number.to_be_bytes());
    }
}

// Writes bytes at a place, and says where they end.
// kept: where a tree is written its caller keeps how far, beside the places of its entries
pub fn append_bytes(out: &mut [u8], at: usize, src: &[u8]) -> usize
    requires { at + length src.now ≤ length out.old }
    ensures end { result ≡ at + length src.now }
    ensures added { Added at out.old src.now result out.new }
{
    let mut writer = Writer { out, used: at };
    writer.bytes(src);
    writer.used
}

// Writes a number as four bytes at a place, and says where they end.
// kept: as above
pub fn append_u32(out: &mut [u8], at: usize, word: u32) -> usize
    requires { at + 4 ≤ length out.old }
    ensures end { result ≡ at + 4 }
    ensures added { Added at out.old (be4 word) result out.new }
{
    let mut writer = Writer { out, used: at };
    writer.u32(word);
    writer.used
}

// Writes a number as eight bytes at a place, and says where they end.
// kept: as above
pub fn append_u64(out: &mut [u8], at: usize, number: u64) -> usize
    requires { at + 8 ≤ length out.old }
    ensures end { result ≡ at + 8 }
    ensures added { Added at out.old (be8 number) result out.new }
{
    let mut writer = Writer { out, used: at };
    writer.u64(number);
    writer.used
}
