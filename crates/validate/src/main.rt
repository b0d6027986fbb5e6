// Judges the rules file on standard input, and prints `accepted` and its total, or `refused`, the number and the record.
#![tactic(auto)]

ghost use Rattle.std.specs.Prelude.{◌≡◌, take};
ghost use Rattle.listing.specs.Counts.{IsPrefixLen};
ghost use Rattle.validate.specs.Printed.{printed};

use listing::text::put_answer;
use program::{ROOM, read_input};
use spec::validate::validate;
use std::io;

// Puts the line for `file` at the start of `text`, and gives how many bytes.
fn answer(file: &[u8], text: &mut [u8; 64]) -> usize
    ensures prefix_len { IsPrefixLen result text.new }
    ensures text_after { take result text.new ≡ printed file.now }
{
    put_answer(text, validate(file))
}

fn main(rt: HostRuntime) -> io::Result<()> {
    let mut file = [0u8; ROOM];
    let n = read_input(&mut rt.stdin(), &mut file)?;
    let mut text = [0u8; 64];
    let len = answer(&file[..n], &mut text);
    rt.write_all(&text[..len])
}
