// What each line of a script does. Houses say nothing yet: `ask`, `hear` and `beat` are where a replica comes in.
ghost use Rattle.std.specs.Prelude.{◌≡◌, IfOk, OnOk};
ghost use Rattle.script.specs.Houses.{fell};
ghost use Rattle.script.specs.Incarnations.{chosen};
ghost use Rattle.rehearse.specs.Played.{or_as, woke_by, after, first, played};

use crate::scene::Scene;
use calls::answers::refused;
use calls::screening::{NotLetIn, screen};
use encoding::push_call as push_bytes;
use replies::answer_in_words;
use script::houses::{Forbidden, Houses};
use script::incarnations::choose;
use script::lines::{Command, Link};
use script::network::{Letter, copies, part};
use spelling::wording::InWords;
use std::alloc::{AllocError, Global};
use std::io;
use std::io::Write;
use words::types::Call;

// A house's answer to a call. Until there is a replica: a refusal, by 1 where the bytes are no call, else by 12.
fn ask(bytes: &[u8]) -> [u8; 3] {
    let why = screen(bytes).err().unwrap_or(NotLetIn::NotBuilt);
    refused(0, why.number())
}

// A house hears a letter.
fn hear(_to: u8, _from: u8, _bytes: &[u8]) {}

// A house's clock ticks.
fn beat(_house: u8) {}

// Writes a line at once, however long it is; `println!` would write it in pieces.
fn write_line(rt: &HostRuntime, line: &str) -> io::Result<()> {
    let mut stdout = rt.stdout();
    stdout.write_all(line.as_bytes())?;
    stdout.flush()
}

// A call at a house, with its answer, in words.
fn play_call(rt: &HostRuntime, scene: &Scene, house: u8, call: &Call) -> anyhow::Result<()> {
    let heap = rt.alloc();
    let mut bytes = Vec::new(heap);
    if let Err(fault) = push_bytes(&mut bytes, call) {
        return Ok(scene.refuse(rt, fault)?);
    }
    let answer = answer_in_words(heap, &ask(&bytes))?;
    // let go before the line is made: each may be as long as the call
    drop(bytes);
    let words = answer.as_deref().unwrap_or("no answer");
    let line = format!(in heap; "{house}: {} -> {words}\n", InWords(call))?;
    Ok(write_line(rt, &line)?)
}

// One house's clock, or all of them, where they are up.
fn play_beat(houses: Houses, which: Option<u8>) {
    match which {
        Some(house) => {
            if houses.is_up(house) {
                beat(house);
            }
        }
        None => (0..houses.all)
            .filter(|house| houses.is_up(*house))
            .for_each(beat),
    }
}

// The letters of a link, which are under way no more.
fn take_letters(
    heap: Global,
    scene: &mut Scene,
    link: Option<Link>,
) -> Result<Vec<Letter>, AllocError>
    ensures drawn { OnOk result (scene.new.drawn.items ≡ scene.old.drawn.items) }
    ensures houses { OnOk result (scene.new.houses ≡ scene.old.houses) }
{
    let letters = std::mem::replace(&mut scene.letters, Vec::new(heap));
    let parted = part(heap, letters, link)?;
    scene.letters = parted.left;
    Ok(parted.taken)
}

// Letters come at the houses that are up.
fn come(houses: Houses, letters: Vec<Letter>) {
    for letter in letters {
        if houses.is_up(letter.to) {
            hear(letter.to, letter.from, &letter.bytes);
        }
    }
}

fn play_fall(rt: &HostRuntime, scene: &Scene, houses: Houses, house: u8) -> io::Result<Houses>
    ensures { IfOk result (λ h. h ≡ or_as houses (fell houses house)) }
{
    match houses.fall(house) {
        Ok(houses) => Ok(houses),
        Err(why) => {
            scene.refuse(rt, why)?;
            Ok(houses)
        }
    }
}

fn play_wake(
    rt: &HostRuntime,
    scene: &mut Scene,
    houses: Houses,
    house: u8,
    named: Option<u64>,
) -> anyhow::Result<Houses>
    ensures { IfOk result (λ h. h ≡ woke_by houses house (chosen scene.old.drawn.items named)) }
{
    let incarnation = match choose(&scene.drawn, named) {
        Ok(incarnation) => incarnation,
        Err(why) => {
            scene.refuse(rt, why)?;
            return Ok(houses);
        }
    };
    match houses.wake(house) {
        Ok(houses) => {
            scene.draw(incarnation)?;
            Ok(houses)
        }
        Err(why) => {
            scene.refuse(rt, why)?;
            Ok(houses)
        }
    }
}

fn play_at(
    rt: &HostRuntime,
    scene: &Scene,
    houses: Houses,
    house: u8,
    call: &Call,
) -> anyhow::Result<()> {
    if house >= houses.all {
        return Ok(scene.refuse(rt, Forbidden::NoHouse)?);
    }
    if !houses.is_up(house) {
        return Ok(scene.refuse(rt, "this house is down")?);
    }
    play_call(rt, scene, house, call)
}

// Once it is said how many houses there are: the houses afterwards.
// kept: a command is an enum of what is to be done, and each of its cases is another thing to do
fn play_among(
    rt: &HostRuntime,
    scene: &mut Scene,
    houses: Houses,
    command: Command,
) -> anyhow::Result<Houses>
    ensures { IfOk result (λ h. h ≡ after houses scene.old.drawn.items command) }
{
    let heap = rt.alloc();
    match command {
        Command::Nothing => {}
        Command::Houses { count: _, room: _ } => {
            scene.refuse(rt, "it was said already how many houses there are")?;
        }
        Command::At(house, call) => play_at(rt, scene, houses, house, &call)?,
        Command::Beat(which) => play_beat(houses, which),
        Command::Pass(link) => come(houses, take_letters(heap, scene, link)?),
        Command::Lose(link) => {
            take_letters(heap, scene, link)?;
        }
        Command::Twice(link) => come(houses, copies(heap, &scene.letters, link)?),
        Command::Fall(house) => return Ok(play_fall(rt, scene, houses, house)?),
        Command::Wake(house, named) => return play_wake(rt, scene, houses, house, named),
        Command::Run { seed: _, steps: _ } => scene.refuse(rt, "runs by a seed are not built yet")?,
    }
    Ok(houses)
}

// Before it is said.
fn play_first(rt: &HostRuntime, scene: &Scene, command: Command) -> io::Result<Option<Houses>>
    ensures { IfOk result (λ h. h ≡ first command) }
{
    match command {
        Command::Nothing => Ok(None),
        Command::Houses { count, room: _ } => Ok(Some(Houses::begin(count))),
        _ => {
            scene.refuse(
                rt,
                "first it is said how many houses there are, as: houses 3",
            )?;
            Ok(None)
        }
    }
}

pub fn play_command(rt: &HostRuntime, scene: &mut Scene, command: Command) -> anyhow::Result<()>
    ensures { OnOk result (scene.new.houses ≡ played scene.old.houses scene.old.drawn.items command) }
{
    scene.houses = match scene.houses {
        Some(houses) => Some(play_among(rt, scene, houses, command)?),
        None => play_first(rt, scene, command)?,
    };
    Ok(())
}
