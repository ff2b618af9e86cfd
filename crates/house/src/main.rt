// The program of one replica: it reads lines, and writes what the replica says to them.
#![tactic(auto)]

use alone::Alone;
use calls::answers::refused;
use calls::screening::{NotLetIn, screen};
use std::alloc::{AllocError, Global};
use std::io::{BufRead, BufReader, Write};
use std::process::ExitCode;
use std::{env, io};
use text::command::{Command, CommandFault, Place, read_command, read_place};
use text::decimal::read_decimal;
use text::frame::{FrameFault, read_frame};
use text::hex::{HexFault, read_hex};
use text::line::push_answer;
use thiserror::Error;

// Why a line was not taken; nothing is changed by it.
#[derive(Clone, Copy, Debug, Error)]
enum Refusal {
    #[error(transparent)]
    Line(#[from] CommandFault),
    #[error(transparent)]
    Hex(#[from] HexFault),
    #[error(transparent)]
    Frame(#[from] FrameFault),
}

// Who this replica is, and the room of its tree in bytes.
#[derive(Clone, Copy)]
struct Arguments {
    place: Place,
    room: u64,
}

// 64 MiB
const FULL_ROOM: u64 = 67108864;

impl Arguments {
    // What the words say; none where they are not understood.
    fn read(mut words: env::Args) -> Option<Arguments> {
        let _program = words.next();
        let (me, all, chance) = (words.next()?, words.next()?, words.next()?);
        let room = match words.next() {
            Some(word) => read_decimal(word.as_bytes()).ok()?,
            None => FULL_ROOM,
        };
        if room > FULL_ROOM || words.next().is_some() {
            return None;
        }
        let place = read_place(me.as_bytes(), all.as_bytes(), chance.as_bytes())?;
        Some(Arguments { place, room })
    }
}

// What a call is answered where there are others, while no replica is built in: a refusal, by 1 where the bytes are no call, else by 12.
fn refuse(heap: Global, number: u64, call: &[u8], out: &mut Vec<u8>) -> Result<(), Refusal> {
    let why = screen(call).err().unwrap_or(NotLetIn::NotBuilt);
    push_answer(heap, out, number, &refused(0, why.number()))?;
    Ok(())
}

// What stands behind the lines: who this replica is, and the tree where it is the only one; as one of several it can't do calls yet.
#[derive(Drop)]
struct House {
    place: Place,
    only: Option<Alone>,
}

impl House {
    fn start(heap: Global, arguments: Arguments) -> Result<House, AllocError> {
        let place = arguments.place;
        let only = if place.all == 1 {
            Some(Alone::new(heap, arguments.room)?)
        } else {
            None
        };
        Ok(House { place, only })
    }

    // A call: answered from the tree where this replica is the only one.
    fn ask(&mut self, heap: Global, bytes: &[u8], out: &mut Vec<u8>) -> Result<(), Refusal> {
        let frame = read_frame(bytes)?;
        let Some(alone) = &mut self.only else {
            return refuse(heap, frame.number, frame.call, out);
        };
        if alone.ask(frame.call) {
            push_answer(heap, out, frame.number, alone.reply())?;
        }
        Ok(())
    }

    // Writes to out what one line brings about.
    fn take_line(&mut self, heap: Global, line: &[u8], out: &mut Vec<u8>) -> Result<(), Refusal> {
        match read_command(line, self.place.me, self.place.all)? {
            Command::Ask(hex) => self.ask(heap, &read_hex(heap, hex)?, out),
            Command::From(_, hex) => {
                read_hex(heap, hex)?;
                Ok(())
            }
            Command::Beat => Ok(()),
        }
    }
}

// Writes what one line brings about.
fn serve(rt: &HostRuntime, house: &mut House, line: &[u8]) -> io::Result<()> {
    let mut out = Vec::new(rt.alloc());
    match house.take_line(rt.alloc(), line, &mut out) {
        Ok(()) => {
            let mut stdout = rt.stdout();
            stdout.write_all(&out)?;
            stdout.flush()
        }
        Err(refusal) => eprintln!(rt; "{refusal}"),
    }
}

fn main(rt: HostRuntime) -> anyhow::Result<ExitCode> {
    let Some(arguments) = Arguments::read(env::args(&rt)?) else {
        eprintln!(rt; "usage: house I N CHANCE [ROOM], with I below N and N from 1 to 7")?;
        return Ok(ExitCode::FAILURE);
    };
    let mut house = House::start(rt.alloc(), arguments)?;
    let mut input = BufReader::new(rt.alloc(), rt.stdin())?;
    let mut line = Vec::new(rt.alloc());
    // kept: a line may be as long as a tree; one Vec holds each of them, where `split` makes one a line and takes twice the memory
    for _ in 0..u64::MAX {
        line.clear();
        if input.read_until(b'\n', &mut line)? == 0 {
            break;
        }
        serve(&rt, &mut house, line.strip_suffix(b"\n").unwrap_or(&line))?;
    }
    Ok(ExitCode::SUCCESS)
}
