// Lists each rules file that an argument names, under both engines, as the stored answers of the original have it. The original knows no places: 0 is printed for each.
#![tactic(auto)]

ghost use Rattle.std.specs.Prelude.{◌≤◌};
ghost use Rattle.listing.specs.Counts.{IsPrefixLen};

use classifier::page::page;
use compose::force::Engine;
use listing::text::put_verdicts;
use program::list::{SCRATCH, TEXT, WORDS, fields_of, last_text};
use program::{ROOM, read_file};
use std::rt::Files;
use std::{env, io};

// Word 1 of each verdict is its place.
fn clear_places(words: &mut [i64], width: usize)
    requires { (4 ≤ width) × (width ≤ 36) }
{
    for verdict in words.chunks_exact_mut(width) {
        verdict[1] = 0;
    }
}

// The lines of the first page, at the start of the text; how many bytes.
fn rows_text(
    engine: Engine,
    file: &[u8],
    scratch: &mut [i64],
    words: &mut [i64],
    text: &mut [u8],
) -> usize
    ensures { IsPrefixLen result text.new }
{
    match page(engine, file, scratch, words, None) {
        Ok(page) => {
            let width = fields_of(file) + 4;
            clear_places(words, width);
            put_verdicts(text, words, page.count, width)
        }
        Err(_) => 0,
    }
}

// A stored file has at most 60 rows and 32 fields: one page.
fn print_listing(rt: &impl Print, engine: Engine, file: &[u8]) -> io::Result<()> {
    let mut scratch = [0i64; SCRATCH];
    let mut words = [0i64; WORDS];
    let mut text = [0u8; TEXT];
    let n = rows_text(engine, file, &mut scratch, &mut words, &mut text);
    rt.write_all(&text[..n])?;
    let mut last = [0u8; 96];
    let m = last_text(engine, file, &mut scratch, &mut last);
    rt.write_all(&last[..m])
}

fn replay_file<R: Files + Print + Eprint>(rt: &R, name: &str) -> io::Result<()> {
    let mut file = [0u8; ROOM];
    if let Some(n) = read_file(rt, name, &mut file)? {
        print!(rt; "file {name}\nstructural\n")?;
        print_listing(rt, Engine::Structural, &file[..n])?;
        print!(rt; "exhaustive\n")?;
        print_listing(rt, Engine::Exhaustive, &file[..n])?;
    }
    Ok(())
}

fn main(rt: HostRuntime) -> io::Result<()> {
    for name in env::args(&rt)?.skip(1) {
        replay_file(&rt, name.as_str())?;
    }
    Ok(())
}
