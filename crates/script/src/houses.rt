// Which houses are up, and which are frail: fallen, and not yet whole again.
ghost use Rattle.std.specs.Prelude.{◌≡◌, ◌≤◌, length};
ghost use Rattle.script.specs.Houses.{is_up, is_frail, frail_count, place_of, house_is_up, begun, fell, woke};

use std::fmt;

// What a house is like: is it up, and is it frail, that is fallen, and not yet whole again.
#[derive(Clone, Copy, Debug, PartialEq, Eq)]
pub struct House {
    pub up: bool,
    pub frail: bool,
}

impl House {
    pub fn is_up(self) -> bool
        ensures { result ≡ is_up self }
    {
        self.up
    }

    pub fn is_frail(self) -> bool
        ensures { result ≡ is_frail self }
    {
        self.frail
    }
}

// How many houses there are, and what each of the seven that there may be is like.
#[derive(Clone, Copy)]
pub struct Houses {
    pub all: u8,
    pub each: [House; 7],
}

// Why a house may not fall or wake.
#[derive(Clone, Copy, Debug, PartialEq, Eq)]
pub enum Forbidden {
    // there is no such house
    NoHouse,
    // it is down already, or up
    Already,
    // with it, half of the houses or more would be frail
    TooMany,
}

// kept: `output` says which text each reason has; the derive says none, and a wrong text would be proved
impl fmt::Display for Forbidden {
    ghost use Rattle.std.specs.Prelude.{Some};
    ghost use Rattle.script.specs.Said.{forbidden_said};

    ghost output = { λ why. Some (forbidden_said why) };

    fn fmt<W: fmt::Write>(&self, f: &mut fmt::Formatter<W>) -> fmt::Result {
        f.write_str(match self {
            Forbidden::NoHouse => "there is no such house",
            Forbidden::Already => "it is so already",
            Forbidden::TooMany => "with it, half of the houses or more would be frail",
        })
    }
}

fn count_frail(each: &[House]) -> usize
    ensures count { result ≡ frail_count each.now }
    ensures few { result ≤ length each.now }
{
    each.iter().filter(|house| house.is_frail()).count()
}

impl Houses {
    // At the first beginning all are there, and none is frail.
    pub fn begin(all: u8) -> Houses
        ensures { result ≡ begun all }
    {
        Houses {
            all,
            each: [House {
                up: true,
                frail: false,
            }; 7],
        }
    }

    // The place of a house among the seven, if there is one of this number.
    fn place(self, house: u8) -> Result<usize, Forbidden>
        ensures { result ≡ place_of self house }
    {
        if house >= self.all || house >= 7 {
            return Err(Forbidden::NoHouse);
        }
        Ok(house as usize)
    }

    // Is there a house of this number, and is it up?
    pub fn is_up(self, house: u8) -> bool
        ensures { result ≡ house_is_up self house }
    {
        house < self.all && house < 7 && self.each[house as usize].is_up()
    }

    // A house falls only while, with it, fewer than half are frail.
    pub fn fall(mut self, house: u8) -> Result<Houses, Forbidden>
        ensures { result ≡ fell self house }
    {
        let place = self.place(house)?;
        if !self.each[place].is_up() {
            return Err(Forbidden::Already);
        }
        self.each[place] = House {
            up: false,
            frail: true,
        };
        if 2 * count_frail(&self.each) < self.all as usize {
            Ok(self)
        } else {
            Err(Forbidden::TooMany)
        }
    }

    // A house that is down wakes, and is frail as it was: once it fell, until it has told that it is whole.
    pub fn wake(mut self, house: u8) -> Result<Houses, Forbidden>
        ensures { result ≡ woke self house }
    {
        let place = self.place(house)?;
        if self.each[place].is_up() {
            return Err(Forbidden::Already);
        }
        self.each[place].up = true;
        Ok(self)
    }
}
