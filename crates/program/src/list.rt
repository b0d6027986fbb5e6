// An engine's program: from a rules file to its listing.
ghost use Rattle.std.specs.Prelude.{◌≡◌, ◌*◌, ◌≤◌, length, take};
ghost use Rattle.compose.specs.Code.{as_engine};
ghost use Rattle.classifier.specs.Count.{count_answer};
ghost use Rattle.classifier.specs.Page.{page_answer};
ghost use Rattle.classifier.specs.Code.{as_start};
ghost use Rattle.listing.specs.Counts.{IsPrefixLen};
ghost use Rattle.program.specs.Printed.{as_next, fields_or, last_line, next_of, page_lines};

use crate::{ROOM, read_input};
use classifier::count::count;
use classifier::page::page;
use compose::force::Engine;
use listing::text::{put_end, put_refusal, put_verdicts};
use spec::validate::validate;
use std::io;
use std::io::{Read, Write};

// The scratch that each engine's program lends.
pub const SCRATCH: usize = 4096;

// The words of a page, and 21 bytes of text for each.
pub const WORDS: usize = 4096;

pub const TEXT: usize = 86016;

// How many fields an accepted file has.
pub fn fields_of(file: &[u8]) -> usize
    ensures { result ≡ fields_or file.now }
{
    match validate(file) {
        Ok(shape) => shape.fields,
        Err(_) => 0,
    }
}

// The last line, at the start of the text; how many bytes.
pub fn last_text(engine: Engine, file: &[u8], scratch: &mut [i64], text: &mut [u8; 96]) -> usize
    ensures counted { IsPrefixLen result text.new }
    ensures line { take result text.new ≡ last_line (count_answer (as_engine engine) (length scratch.old) file.now) }
{
    match count(engine, file, scratch) {
        Ok(c) => put_end(text, 0, c),
        Err(r) => put_refusal(text, 0, r),
    }
}

// A page of the listing: how many bytes of text, and the tuple after which verdicts follow, if any do.
#[derive(Drop)]
struct PageText {
    len: usize,
    next: Option<[usize; 32]>,
}

// The lines of a page, at the start of the text, which has 21 bytes for each word.
fn page_text(
    engine: Engine,
    file: &[u8],
    scratch: &mut [i64],
    words: &mut [i64],
    text: &mut [u8],
    start: Option<[usize; 32]>,
) -> PageText
    requires { length words.old * 21 ≤ length text.old }
    ensures counted { IsPrefixLen result.len text.new }
    ensures lines { take result.len text.new ≡ page_lines (as_engine engine) file.now (as_start start) (page_answer (as_engine engine) (length scratch.old) (length words.old) file.now (as_start start)) }
    ensures next { as_next result.next ≡ next_of (page_answer (as_engine engine) (length scratch.old) (length words.old) file.now (as_start start)) }
{
    match page(engine, file, scratch, words, start) {
        Ok(page) => {
            let len = put_verdicts(text, words, page.count, fields_of(file) + 4);
            let next = if page.done { None } else { Some(page.last) };
            PageText { len, next }
        }
        Err(_) => PageText { len: 0, next: None },
    }
}

// Writes the lines of the verdicts, page by page. A proved loop has to end: the turns count up to a number that no run uses up.
fn print_verdicts<W: Write>(
    engine: Engine,
    file: &[u8],
    scratch: &mut [i64],
    output: &mut W,
) -> io::Result<()> {
    let mut words = [0i64; WORDS];
    let mut text = [0u8; TEXT];
    let mut start = None;
    for _ in 0..u64::MAX {
        let p = page_text(engine, file, scratch, &mut words, &mut text, start);
        output.write_all(&text[..p.len])?;
        if p.next.is_none() {
            break;
        }
        start = p.next;
    }
    Ok(())
}

// Lists the rules file that the input holds.
pub fn list<R: Read, W: Write>(engine: Engine, input: &mut R, output: &mut W) -> io::Result<()> {
    let mut file = [0u8; ROOM];
    let n = read_input(input, &mut file)?;
    let mut scratch = [0i64; SCRATCH];
    print_verdicts(engine, &file[..n], &mut scratch, output)?;
    let mut text = [0u8; 96];
    let len = last_text(engine, &file[..n], &mut scratch, &mut text);
    output.write_all(&text[..len])
}
