// Lists the answer sets of the text on the standard input.
#![tactic(auto)]

use anyhow::anyhow;
use closure::row::Row;
use finders::branching::Branching;
use finders::counting::Counting;
use finders::finder::{Finder, Found};
use listing_text::lines::{Ending, add_set, count_line, refused_line};
use listing_text::words::Order;
use programs::program::Program;
use reading::table::Atoms;
use reading::text::read_text;
use refusals::fault::Text;
use site_files::refusal::write_refusal;
use std::env;
use std::io::{BufWriter, Read, Write};

// What the arguments ask for: an order, and how many sets at most.
#[derive(Clone, Copy)]
struct Asked {
    order: Order,
    most: u64,
}

// Where no argument is given, all sets in the branching order.
fn from_arguments(rt: &HostRuntime) -> anyhow::Result<Asked> {
    let mut args = env::args(rt)?.skip(1);
    let order = match args.next() {
        None => Order::Branching,
        Some(word) => word.parse::<Order>().map_err(|_| anyhow!(
            "the first argument is neither counting nor branching"
        ))?,
    };
    let most = match args.next() {
        None => u64::MAX,
        Some(word) => word
            .parse::<u64>()
            .map_err(|_| anyhow!("the second argument is no number of sets"))?,
    };
    Ok(Asked { order, most })
}

// The text that was read, and how many of its answer sets are wanted at most.
#[derive(Clone, Copy)]
struct Wanted<'a> {
    program: &'a Program<96>,
    atoms: &'a Atoms<'a>,
    most: u64,
}

// Tells the sets one after another, at most as many as are wanted, then how many they are; or why the finder takes no such text.
fn list<F: Finder<96>, W: Write>(
    rt: &HostRuntime,
    finder: &F,
    wanted: &Wanted<'_>,
    out: &mut W,
) -> anyhow::Result<()> {
    let given = Row::clear();
    let mut row = Row::clear();
    let mut earlier = None;
    let mut line = Vec::new(rt.alloc());
    for count in 0..wanted.most {
        match finder.next(wanted.program, &given, earlier.as_ref(), &mut row) {
            Ok(Found::Entry) => {
                line.clear();
                add_set(&mut line, wanted.atoms, &row)?;
                out.write_all(line.as_slice())?;
                earlier = Some(row);
            }
            Ok(Found::End) => {
                let last = count_line(rt.alloc(), count, Ending::Complete)?;
                return Ok(out.write_all(last.as_bytes())?);
            }
            Err(refusal) => {
                let last = refused_line(rt.alloc(), refusal)?;
                return Ok(out.write_all(last.as_bytes())?);
            }
        }
    }
    let last = count_line(rt.alloc(), wanted.most, Ending::Stopped)?;
    Ok(out.write_all(last.as_bytes())?)
}

// Lists the sets of the text in the order that is asked for.
fn list_asked(
    rt: &HostRuntime,
    asked: Asked,
    program: &Program<96>,
    atoms: &Atoms<'_>,
) -> anyhow::Result<()> {
    let most = asked.most;
    let wanted = Wanted {
        program,
        atoms,
        most,
    };
    let mut out = BufWriter::new(rt.alloc(), rt.stdout())?;
    match asked.order {
        Order::Counting => list(rt, &Counting, &wanted, &mut out)?,
        Order::Branching => list(rt, &Branching, &wanted, &mut out)?,
    }
    Ok(out.flush()?)
}

fn run(rt: &HostRuntime) -> anyhow::Result<()> {
    let asked = from_arguments(rt)?;
    let mut text = Vec::new(rt.alloc());
    rt.stdin().read_to_end(&mut text)?;
    match read_text(
        rt.alloc(),
        Text::Plan,
        text.as_slice(),
        Atoms::new(rt.alloc()),
    ) {
        Ok((section, atoms)) => list_asked(rt, asked, section.program(), &atoms),
        Err(fault) => Ok(write_refusal(&mut rt.stdout(), fault)?),
    }
}

fn main(rt: HostRuntime) -> anyhow::Result<()> {
    run(&rt)
}
