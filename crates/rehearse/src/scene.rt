// What a rehearsal has: the houses, the letters under way, and the incarnations that there were.
ghost use Rattle.std.specs.Prelude.{◌≡◌, [], ◌∷◌, ◌++◌, None, OnOk};

use script::houses::Houses;
use script::network::Letter;
use std::alloc::{AllocError, Global};
use std::fmt::Display;
use std::io;

#[derive(Drop)]
pub struct Scene {
    // the script's line that is played
    pub line: u64,
    // none before the script has said how many there are
    pub houses: Option<Houses>,
    pub letters: Vec<Letter>,
    // what was drawn when a house woke, or named
    pub drawn: Vec<u64>,
}

impl Scene {
    pub fn empty(heap: Global) -> Scene
        ensures { (result.line ≡ 0) × (result.houses ≡ None) × (result.letters.items ≡ []) × (result.drawn.items ≡ []) }
    {
        Scene {
            line: 0,
            houses: None,
            letters: Vec::new(heap),
            drawn: Vec::new(heap),
        }
    }

    // Says why the line is not played; nothing is done of it.
    pub fn refuse<E: Display + Drop>(&self, rt: &HostRuntime, why: E) -> io::Result<()> {
        let line = self.line;
        println!(rt; "line {line}: {why}")
    }

    // An incarnation was drawn, or named; nothing else changes.
    pub fn draw(&mut self, incarnation: u64) -> Result<(), AllocError>
        ensures drawn { OnOk result (self.new.drawn.items ≡ self.old.drawn.items ++ (incarnation ∷ [])) }
        ensures kept { (self.new.line ≡ self.old.line) × (self.new.houses ≡ self.old.houses) × (self.new.letters ≡ self.old.letters) }
    {
        self.drawn.push(incarnation)?;
        Ok(())
    }
}
