// Plays a script on houses in memory, and prints each answer with the call that it answers.
#![tactic(auto)]

mod play;
mod scene;

use play::play_command;
use scene::Scene;
use script::lines::read_line;
use std::io::{BufRead, BufReader};
use std::{env, fs};

fn play_line(rt: &HostRuntime, scene: &mut Scene, line: &[u8]) -> anyhow::Result<()> {
    scene.line = scene.line.wrapping_add(1);
    match read_line(rt.alloc(), line) {
        Ok(command) => play_command(rt, scene, command),
        Err(fault) => Ok(scene.refuse(rt, fault)?),
    }
}

fn play_lines<R: BufRead + Drop>(
    rt: &HostRuntime,
    scene: &mut Scene,
    mut script: R,
) -> anyhow::Result<()> {
    let mut line = Vec::new(rt.alloc());
    // kept: one Vec holds each line; `split` makes one a line, and where lines are long that takes twice the memory
    for _ in 0..u64::MAX {
        line.clear();
        if script.read_until(b'\n', &mut line)? == 0 {
            break;
        }
        play_line(rt, scene, line.strip_suffix(b"\n").unwrap_or(&line))?;
    }
    Ok(())
}

// A script from a file, or as it is typed.
fn play_script(rt: &HostRuntime, scene: &mut Scene) -> anyhow::Result<()> {
    let heap = rt.alloc();
    let mut words = env::args(rt)?;
    let _program = words.next();
    match words.next() {
        None => play_lines(rt, scene, BufReader::new(heap, rt.stdin())?),
        Some(name) => play_lines(
            rt,
            scene,
            BufReader::new(heap, fs::open(rt, name.as_str())?)?,
        ),
    }
}

fn main(rt: HostRuntime) -> anyhow::Result<()> {
    let mut scene = Scene::empty(rt.alloc());
    play_script(&rt, &mut scene)?;
    let letters = scene.letters.len();
    println!(rt; "waiting: no call")?;
    println!(rt; "under way: {letters} letters")?;
    println!(rt; "order: not looked for yet")?;
    Ok(())
}
