// Text put into a lent buffer from `at` on. Each call gives the place after what it put there.
ghost use Rattle.std.specs.Prelude.{◌≡◌, true, [], ◌∷◌, ◌+◌, ◌≤◌, pos, length, take};
ghost use Rattle.std.proofs.lemmas.List.Edits.{sets};
ghost use Rattle.spec.specs.Code.{as_refused};
ghost use Rattle.spec.specs.Refusal.{Refused};
ghost use Rattle.registry.specs.Code.{as_projection};
ghost use Rattle.lists.specs.Lists.{concat_map};
ghost use Rattle.lists.specs.Integers.{eq_z};
ghost use Rattle.classifier.specs.Code.{as_counts};
ghost use Rattle.listing.specs.Code.{as_answer_by, as_numbered};
ghost use Rattle.listing.specs.Counts.{IsPrefixLen};
ghost use Rattle.listing.specs.Text.{signed_decimal, spaced, projection_text, refusal, refused_line, end_line, accepted_line, answer_line};
ghost use Rattle.listing.specs.Words.{after_if, bytes_for, can_list, has_room, line_of, lines_of, put_if};

use classifier::count::Counts;
use itoa::{Buffer, Integer};
use spec::refusal::Refusal;
use spec::validate::Shape;

// What is printed of a refusal, of which any number will do.
#[derive(Clone, Copy)]
pub struct Numbered {
    pub number: u8,
    pub record: usize,
}

// A refusal that is printed by its numbers. Of std's `Into` a clause would know a relation alone, and not the numbers.
pub trait IntoNumbered {
    // The number and the record that are printed.
    ghost numbers: { Self → Refused };

    fn into_numbered(self) -> Numbered
        ensures { as_numbered result ≡ numbers self };
}

impl IntoNumbered for Numbered {
    ghost numbers = { as_numbered };

    fn into_numbered(self) -> Numbered {
        self
    }
}

impl IntoNumbered for Refusal {
    ghost numbers = { as_refused };

    fn into_numbered(self) -> Numbered {
        Numbered {
            number: self.fault.into(),
            record: self.record,
        }
    }
}

// Buffer and place are handed from call to call: each call gives the place after it. Of a struct of both every contract would have to say, too, that it holds the same buffer still; and `Display` writes to a writer, which may fail.
fn put_byte(out: &mut [u8], at: usize, byte: u8) -> usize
    requires { at + 1 ≤ length out.old }
    ensures out_after { out.new ≡ sets out.old at (byte ∷ []) }
    ensures value { result ≡ at + 1 }
{
    out[at] = byte;
    at + 1
}

fn put_word(out: &mut [u8], at: usize, word: &[u8]) -> usize
    requires { at + length word.now ≤ length out.old }
    ensures out_after { out.new ≡ sets out.old at word.now }
    ensures value { result ≡ at + length word.now }
{
    let end = at + word.len();
    out[at..end].copy_from_slice(word);
    end
}

// A space, then the number, of 64 bits at most: with its sign it has at most 20 bytes.
fn put_spaced<I: Integer>(out: &mut [u8], at: usize, number: I) -> usize
    requires { (I.MAX_STR_LEN ≤ 20) × (at + 21 ≤ length out.old) }
    ensures out_after { out.new ≡ sets out.old at (spaced (I.text number)) }
    ensures value { result ≡ at + length (spaced (I.text number)) }
    ensures upper_bound { result ≤ at + 21 }
{
    let next = put_byte(out, at, b' ');
    let mut digits = Buffer::new();
    put_word(out, next, digits.format(number).as_bytes())
}

// The line of a refusal by its numbers, as files and listings have them: at most 50 bytes.
fn put_refused(out: &mut [u8], at: usize, number: u8, record_number: usize) -> usize
    requires { at + 50 ≤ length out.old }
    ensures out_after { out.new ≡ sets out.old at (refused_line (refusal number record_number)) }
    ensures value { result ≡ at + length (refused_line (refusal number record_number)) }
    ensures upper_bound { result ≤ at + 50 }
{
    let numbers = put_word(out, at, b"refused");
    let records = put_spaced(out, numbers, u64::from(number));
    let end = put_spaced(out, records, record_number as u64);
    put_byte(out, end, b'\n')
}

// The line of an accepted file: at most 30 bytes.
fn put_accepted(out: &mut [u8], at: usize, total: u64) -> usize
    requires { at + 30 ≤ length out.old }
    ensures out_after { out.new ≡ sets out.old at (accepted_line total) }
    ensures value { result ≡ at + length (accepted_line total) }
    ensures upper_bound { result ≤ at + 30 }
{
    let totals = put_word(out, at, b"accepted");
    let end = put_spaced(out, totals, total);
    put_byte(out, end, b'\n')
}

// A space and the number, for each.
fn put_values(out: &mut [u8], at: usize, numbers: &[i64]) -> usize
    requires { at + bytes_for (length numbers.now) ≤ length out.old }
    ensures out_after { out.new ≡ sets out.old at (concat_map (λ x. spaced (signed_decimal x)) numbers.now) }
    ensures value { result ≡ at + length (concat_map (λ x. spaced (signed_decimal x)) numbers.now) }
    ensures upper_bound { result ≤ at + bytes_for (length numbers.now) }
{
    let mut next = at;
    for number in numbers {
        next = put_spaced(out, next, *number);
    }
    next
}

// A space, then the projection, or - where there is none.
fn put_projection(out: &mut [u8], at: usize, projection: Option<i64>) -> usize
    requires { at + 21 ≤ length out.old }
    ensures out_after { out.new ≡ sets out.old at (spaced (projection_text (as_projection projection))) }
    ensures value { result ≡ at + length (spaced (projection_text (as_projection projection))) }
    ensures upper_bound { result ≤ at + 21 }
{
    match projection {
        Some(number) => put_spaced(out, at, number),
        None => put_word(out, at, b" -"),
    }
}

// The line of a verdict, from its page words, which are numbers as the page has them: passed, place, whether there is a projection, and which.
fn put_line(out: &mut [u8], at: usize, words: &[i64]) -> usize
    requires { (4 ≤ length words.now) × (at + bytes_for (length words.now) ≤ length out.old) }
    ensures out_after { out.new ≡ sets out.old at (line_of words.now) }
    ensures value { result ≡ at + length (line_of words.now) }
    ensures upper_bound { result ≤ at + bytes_for (length words.now) }
{
    let letter = if words[0] == 1 { b'P' } else { b'F' };
    let places = put_byte(out, at, letter);
    let projections = put_spaced(out, places, words[1]);
    let projection = if words[2] == 1 { Some(words[3]) } else { None };
    let values = put_projection(out, projections, projection);
    let end = put_values(out, values, &words[4..]);
    put_byte(out, end, b'\n')
}

// The lines of so many verdicts, of so many page words each; there are as many words, and room.
fn put_lines(out: &mut [u8], words: &[i64], count: usize, width: usize) -> usize
    requires { can_list out.old words.now count width ≡ true }
    ensures out_after { out.new ≡ sets out.old 0 (lines_of count width words.now) }
    ensures value { result ≡ length (lines_of count width words.now) }
    ensures upper_bound { result ≤ length out.old }
{
    let mut next = 0;
    for i in 0..count {
        let from = i * width;
        next = put_line(out, next, &words[from..from + width]);
    }
    next
}

// The lines of so many verdicts, of so many page words each, at the start of `out`; how many bytes. Without that many words, or 21 bytes for each, nothing is put.
pub fn put_verdicts(out: &mut [u8], words: &[i64], count: usize, width: usize) -> usize
    ensures out_after { out.new ≡ put_if (can_list out.old words.now count width) (lines_of count width words.now) 0 out.old }
    ensures value { result ≡ after_if (can_list out.old words.now count width) (lines_of count width words.now) 0 }
    ensures upper_bound { result ≤ length out.old }
{
    if width < 4 {
        return 0;
    }
    if words.len() / width < count {
        return 0;
    }
    if out.len() / 21 < count * width {
        return 0;
    }
    put_lines(out, words, count, width)
}

// There is room for so many bytes from a place on.
fn has_room(out: &[u8], at: usize, bytes: usize) -> bool
    ensures { result ≡ has_room out.now at bytes }
{
    at <= out.len() && bytes <= out.len() - at
}

// The last line: end, total, emitted, passed, failed. It takes at most 88 bytes; without room for them nothing is put.
pub fn put_end(out: &mut [u8], at: usize, c: Counts) -> usize
    ensures out_after { out.new ≡ put_if (has_room out.old at 88) (end_line (as_counts c)) at out.old }
    ensures value { result ≡ after_if (has_room out.old at 88) (end_line (as_counts c)) at }
{
    if !has_room(&out[..], at, 88) {
        return at;
    }
    let totals = put_word(out, at, b"end");
    let emitted = put_spaced(out, totals, c.total as u64);
    let passed = put_spaced(out, emitted, c.emitted as u64);
    let failed = put_spaced(out, passed, c.passed as u64);
    let end = put_spaced(out, failed, c.failed as u64);
    put_byte(out, end, b'\n')
}

// The line of a refusal by its numbers, of which any will do: a `Refusal` has those of a `Fault` alone. It takes at most 50 bytes; without room for them nothing is put.
pub fn put_numbered(out: &mut [u8], at: usize, number: u8, record_number: usize) -> usize
    ensures out_after { out.new ≡ put_if (has_room out.old at 50) (refused_line (refusal number record_number)) at out.old }
    ensures value { result ≡ after_if (has_room out.old at 50) (refused_line (refusal number record_number)) at }
    ensures upper_bound { result ≤ at + 50 }
{
    if !has_room(&out[..], at, 50) {
        return at;
    }
    put_refused(out, at, number, record_number)
}

// The line of a refusal: it takes at most 50 bytes; without room for them nothing is put.
pub fn put_refusal<R: IntoNumbered>(out: &mut [u8], at: usize, r: R) -> usize
    ensures out_after { out.new ≡ put_if (has_room out.old at 50) (refused_line (R.numbers r)) at out.old }
    ensures value { result ≡ after_if (has_room out.old at 50) (refused_line (R.numbers r)) at }
{
    let numbered = r.into_numbered();
    put_numbered(out, at, numbered.number, numbered.record)
}

// The line for what `validate` answered, at the start of `text`; how many bytes.
pub fn put_answer<R: IntoNumbered>(text: &mut [u8; 64], judged: Result<Shape, R>) -> usize
    ensures prefix_len { IsPrefixLen result text.new }
    ensures text_after { take result text.new ≡ answer_line (as_answer_by R.numbers judged) }
    ensures text_after_2 { text.new ≡ sets text.old 0 (answer_line (as_answer_by R.numbers judged)) }
{
    match judged {
        Ok(shape) => put_accepted(text, 0, shape.total as u64),
        Err(refusal) => {
            let numbered = refusal.into_numbered();
            put_refused(text, 0, numbered.number, numbered.record)
        }
    }
}
