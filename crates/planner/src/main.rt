// Reads a site's three texts from the current folder, and tells the first winning plan, or that there is none, or why the texts are refused.
#![tactic(auto)]

use deciding::deciding::decide;
use loading::sources::Three;
use report::input::side_asked;
use site_files::files::{lent, or_empty};
use site_files::input::first_byte;
use site_files::refusal::write_refusal;
use std::io::Write;
use std::{fs, io};

// Longer than any report: 96 names of 32 bytes, each with a dot and a line feed, after two lines.
const REPORT_ROOM: usize = 4_096;

// The bytes of a file of the current folder; a missing file is empty.
fn read_file(rt: &HostRuntime, name: &str) -> io::Result<Vec<u8>> {
    or_empty(rt.alloc(), fs::read(rt, name))
}

fn run(rt: &HostRuntime) -> anyhow::Result<()> {
    let side = side_asked(first_byte(&mut rt.stdin())?);
    // A file is read only where those before it could be.
    let files = Three {
        plan: read_file(rt, "plan.lp")?,
        faults: read_file(rt, "faults.lp")?,
        site: read_file(rt, "site.lp")?,
    };
    let mut lines = [0u8; REPORT_ROOM];
    match decide(rt.alloc(), side, lent(&files), &mut lines) {
        Ok(length) => rt.stdout().write_all(&lines[0..length])?,
        Err(fault) => write_refusal(&mut rt.stdout(), fault)?,
    }
    Ok(())
}

fn main(rt: HostRuntime) -> anyhow::Result<()> {
    run(&rt)
}
