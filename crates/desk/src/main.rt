// The book from the keyboard: a command on each line of the standard input, answered at once.
#![tactic(auto)]

use desk_book::desk::Desk;
use desk_text::command::{Command, read_line};
use desk_text::lines::{help_lines, no_command_line, unread_line};
use loading::sources::Three;
use site_files::files::gathered;
use std::io::{BufRead, BufReader, Write};
use std::{fs, io};

// The three files of a folder; a missing one is empty.
fn read_folder(rt: &HostRuntime, folder: &str) -> io::Result<Three<Vec<u8>>> {
    let heap = rt.alloc();
    gathered(
        heap,
        fs::read(rt, format!(in heap; "{folder}/plan.lp")?),
        fs::read(rt, format!(in heap; "{folder}/faults.lp")?),
        fs::read(rt, format!(in heap; "{folder}/site.lp")?),
    )
}

// Loads the files of a folder; where they cannot be read, nothing changes.
fn load(
    rt: &HostRuntime,
    desk: &mut Desk,
    side: u8,
    folder: &str,
    out: &mut Vec<u8>,
) -> anyhow::Result<()> {
    match read_folder(rt, folder) {
        Ok(texts) => desk.load(rt.alloc(), side, texts, out)?,
        Err(_) => out.extend_from_slice(unread_line())?,
    }
    Ok(())
}

// Adds the answer to a command.
fn answer(
    rt: &HostRuntime,
    desk: &mut Desk,
    command: Command<'_>,
    out: &mut Vec<u8>,
) -> anyhow::Result<()> {
    let heap = rt.alloc();
    match command {
        Command::Nothing => {}
        Command::Load { side, folder } => load(rt, desk, side, folder, out)?,
        Command::Ask(order) => desk.ask(heap, order, out)?,
        Command::Strike => desk.strike(heap, out)?,
        Command::Wipe => desk.wipe(out)?,
        Command::Look { kind, place } => desk.look(heap, kind, place, out)?,
        Command::Why => desk.why(heap, out)?,
        Command::All => desk.all(heap, out)?,
        Command::Help => out.extend_from_slice(help_lines())?,
    }
    Ok(())
}

// Answers each line before it reads the next, until the input ends.
fn run(rt: &HostRuntime) -> anyhow::Result<()> {
    let heap = rt.alloc();
    let mut desk = Desk::new(heap);
    let mut input = BufReader::new(heap, rt.stdin())?;
    let mut output = rt.stdout();
    for _ in 0..u64::MAX {
        let mut line = Vec::new(heap);
        if input.read_until(b'\n', &mut line)? == 0 {
            break;
        }
        let mut out = Vec::new(heap);
        match read_line(line.as_slice()) {
            Ok(command) => answer(rt, &mut desk, command, &mut out)?,
            Err(_) => out.extend_from_slice(no_command_line())?,
        }
        output.write_all(out.as_slice())?;
        output.flush()?;
    }
    Ok(())
}

fn main(rt: HostRuntime) -> anyhow::Result<()> {
    run(&rt)
}
