// The calls for other languages, over numbers and slices alone. Each gives a status; the answer stands in a lent array.
#![tactic(auto)]

ghost use Rattle.std.specs.Prelude.{◌≡◌, false, true, ◌&&◌, ◌∷◌, ◌≤◌, leb, length, MatchOption};
ghost use Rattle.lists.specs.Lists.{over};
ghost use Rattle.spec.specs.Record.{decoded};
ghost use Rattle.spec.specs.Refusal.{answer, file_fault};
ghost use Rattle.compose.specs.Code.{as_engine};
ghost use Rattle.classifier.specs.Count.{count_answer, count_fault, scratch_after};
ghost use Rattle.classifier.specs.Page.{page_answer, page_fault, page_output};
ghost use Rattle.classifier.specs.Code.{as_start};
ghost use Rattle.join.specs.Code.{as_which};
ghost use Rattle.join.specs.Join.{join_answer, join_output};
ghost use Rattle.exports.specs.Calls.{answer_words, count_words, engine_of, if_called, is_engine, is_start, join_words, page_words, spec_words, start_of, status, which_number};

use classifier::count::{count, scratch_for};
use classifier::page::page;
use compose::force::Engine;
use join::join::{Which, join};
use spec::validate::validate;

// The statuses, which are numbers in the C interface.
const ACCEPTED: u8 = 0;

const REFUSED: u8 = 1;

const TOO_SHORT: u8 = 2;

const NO_ENGINE: u8 = 3;

// Writes the first words.
fn put<const N: usize>(words: &mut [usize], answer: [usize; N])
    requires { N ≤ length words.old }
    ensures { words.new ≡ over answer.entry words.old }
{
    words[..N].copy_from_slice(&answer);
}

// The 34 words of a page: two numbers and a tuple.
fn page_answer(count: usize, done: usize, last: [usize; 32]) -> [usize; 34]
    ensures { result ≡ count ∷ done ∷ last }
{
    let mut answer = [0usize; 34];
    answer[0] = count;
    answer[1] = done;
    answer[2..].copy_from_slice(&last);
    answer
}

// The engine of a number, if there is one. No `TryFrom`, since only this interface has these numbers.
fn engine_of(number: u8) -> Option<Engine>
    ensures { MatchOption result (is_engine number ≡ false) (λ engine. (is_engine number ≡ true) × (as_engine engine ≡ engine_of number)) }
{
    match number {
        0 => Some(Engine::Structural),
        1 => Some(Engine::Exhaustive),
        _ => None,
    }
}

// The tuple to start after: the first 32 numbers, if any are given.
fn start_of(numbers: &[usize]) -> Option<[usize; 32]>
    requires { is_start numbers.now ≡ true }
    ensures { as_start result ≡ start_of numbers.now }
{
    numbers.first_chunk().copied()
}

// The number that other languages have for the file; it stands here, since only this interface has it.
fn which_number(which: Which) -> usize
    ensures { result ≡ which_number (as_which which) }
{
    match which {
        Which::First => 1,
        Which::Second => 2,
        Which::Both => 3,
    }
}

// The answer has room for four words.
fn count_into(engine: Engine, file: &[u8], scratch: &mut [i64], words: &mut [usize]) -> u8
    requires { 4 ≤ length words.old }
    ensures status { result ≡ status true true (count_answer (as_engine engine) (length scratch.old) file.now) }
    ensures words { words.new ≡ over (answer_words 4 count_words (count_answer (as_engine engine) (length scratch.old) file.now)) words.old }
    ensures scratch { scratch.new ≡ scratch_after (count_fault (as_engine engine) (length scratch.old) file.now) scratch.old }
{
    match count(engine, file, scratch) {
        Ok(c) => {
            put(words, [c.total, c.emitted, c.passed, c.failed]);
            ACCEPTED
        }
        Err(r) => {
            put(words, [usize::from(u8::from(r.fault)), r.record, 0, 0]);
            REFUSED
        }
    }
}

// The answer has room for 34 words, and the start is one.
fn page_into(
    engine: Engine,
    file: &[u8],
    scratch: &mut [i64],
    out: &mut [i64],
    start: Option<[usize; 32]>,
    words: &mut [usize],
) -> u8
    requires { 34 ≤ length words.old }
    ensures status { result ≡ status true true (page_answer (as_engine engine) (length scratch.old) (length out.old) file.now (as_start start)) }
    ensures words { words.new ≡ over (answer_words 34 page_words (page_answer (as_engine engine) (length scratch.old) (length out.old) file.now (as_start start))) words.old }
    ensures out { out.new ≡ page_output (as_engine engine) (length scratch.old) file.now (as_start start) out.old }
    ensures scratch { scratch.new ≡ scratch_after (page_fault (as_engine engine) (length scratch.old) (length out.old) file.now (as_start start)) scratch.old }
{
    match page(engine, file, scratch, out, start) {
        Ok(page) => {
            put(
                words,
                page_answer(page.count, usize::from(page.done), page.last),
            );
            ACCEPTED
        }
        Err(r) => {
            put(
                words,
                page_answer(usize::from(u8::from(r.fault)), r.record, [0; 32]),
            );
            REFUSED
        }
    }
}

// Judges a file: refused 1 to 10, or accepted.
#[unsafe(no_mangle)]
pub extern "C" fn rules_validate(file: &[u8], words: &mut [usize]) -> u8
    ensures status { result ≡ status (leb 4 (length words.old)) true (answer (file_fault file.now) (decoded file.now)) }
    ensures words { words.new ≡ if_called (leb 4 (length words.old)) true (over (answer_words 4 spec_words (answer (file_fault file.now) (decoded file.now))) words.old) words.old }
{
    if words.len() < 4 {
        return TOO_SHORT;
    }
    match validate(file) {
        Ok(shape) => {
            put(
                words,
                [
                    shape.fields,
                    shape.constraints,
                    shape.total,
                    scratch_for(file),
                ],
            );
            ACCEPTED
        }
        Err(r) => {
            put(words, [usize::from(u8::from(r.fault)), r.record, 0, 0]);
            REFUSED
        }
    }
}

// Total, emitted, passed, failed; or refused 1 to 13.
#[unsafe(no_mangle)]
pub extern "C" fn rules_count(
    engine: u8,
    file: &[u8],
    scratch: &mut [i64],
    words: &mut [usize],
) -> u8
    ensures status { result ≡ status (leb 4 (length words.old)) (is_engine engine) (count_answer (engine_of engine) (length scratch.old) file.now) }
    ensures words { words.new ≡ if_called (leb 4 (length words.old)) (is_engine engine) (over (answer_words 4 count_words (count_answer (engine_of engine) (length scratch.old) file.now)) words.old) words.old }
    ensures scratch { scratch.new ≡ if_called (leb 4 (length words.old)) (is_engine engine) (scratch_after (count_fault (engine_of engine) (length scratch.old) file.now) scratch.old) scratch.old }
{
    if words.len() < 4 {
        return TOO_SHORT;
    }
    match engine_of(engine) {
        Some(engine) => count_into(engine, file, scratch, words),
        None => NO_ENGINE,
    }
}

// The next verdicts that fit; or refused 1 to 15.
#[unsafe(no_mangle)]
pub extern "C" fn rules_page(
    engine: u8,
    file: &[u8],
    scratch: &mut [i64],
    out: &mut [i64],
    start: &[usize],
    words: &mut [usize],
) -> u8
    ensures status { result ≡ status (is_start start.now && leb 34 (length words.old)) (is_engine engine) (page_answer (engine_of engine) (length scratch.old) (length out.old) file.now (start_of start.now)) }
    ensures words { words.new ≡ if_called (is_start start.now && leb 34 (length words.old)) (is_engine engine) (over (answer_words 34 page_words (page_answer (engine_of engine) (length scratch.old) (length out.old) file.now (start_of start.now))) words.old) words.old }
    ensures out { out.new ≡ if_called (is_start start.now && leb 34 (length words.old)) (is_engine engine) (page_output (engine_of engine) (length scratch.old) file.now (start_of start.now) out.old) out.old }
    ensures scratch { scratch.new ≡ if_called (is_start start.now && leb 34 (length words.old)) (is_engine engine) (scratch_after (page_fault (engine_of engine) (length scratch.old) (length out.old) file.now (start_of start.now)) scratch.old) scratch.old }
{
    if words.len() < 34 {
        return TOO_SHORT;
    }
    if (start.len() != 0) & (start.len() < 32) {
        return TOO_SHORT;
    }
    match engine_of(engine) {
        Some(engine) => page_into(engine, file, scratch, out, start_of(start), words),
        None => NO_ENGINE,
    }
}

// The joined file and its length; or which file is refused.
#[unsafe(no_mangle)]
pub extern "C" fn rules_join(first: &[u8], second: &[u8], out: &mut [u8], words: &mut [usize]) -> u8
    ensures status { result ≡ status (leb 4 (length words.old)) true (join_answer (length out.old) first.now second.now) }
    ensures words { words.new ≡ if_called (leb 4 (length words.old)) true (over (join_words (join_answer (length out.old) first.now second.now)) words.old) words.old }
    ensures out { out.new ≡ if_called (leb 4 (length words.old)) true (join_output first.now second.now out.old) out.old }
{
    if words.len() < 4 {
        return TOO_SHORT;
    }
    match join(first, second, out) {
        Ok(len) => {
            put(words, [len, 0, 0, 0]);
            ACCEPTED
        }
        Err(r) => {
            let number = usize::from(u8::from(r.why.fault));
            put(words, [number, r.why.record, which_number(r.which), 0]);
            REFUSED
        }
    }
}
