// The line of an answer, and the last line (document 01, "The call log and its program").
#![tactic(auto)]

ghost use Rattle.std.specs.Prelude.{◌≡◌, ◌+◌, ◌≤◌, length};
ghost use Rattle.io.specs.Digits.{last_digits, IsDigitCount};
ghost use Rattle.records.specs.Buffers.{written, Put};
ghost use Rattle.lines.specs.Lines.{decimal, line, number_line, line_of, last_line};

use model::Answer;
use records::RECORD_BYTES;

// Copies a text into `out` from `at` on, and gives the place after it. By hand, the buffer and the place
// apart: so `write_line` and `last_line` promise it to their callers (`Put`).
fn put(out: &mut [u8], at: usize, text: &[u8]) -> usize
    requires { at + length text.now ≤ length out.old }
    ensures { Put out.old at text.now result out.new }
{
    let end = at + text.len();
    out[at..end].copy_from_slice(text);
    end
}

// How many decimal digits a number has. The limit goes to 10^19, the greatest power of ten in 64 bits. This
// and the next by hand: the kit's `io::decimal` reckons for any base, into a buffer that is copied then, and
// with it a log of refused records takes 1.35 times the instructions.
fn places(n: u64) -> usize
    ensures { IsDigitCount 10 1 n result }
{
    let mut limit: u64 = 10;
    let mut k: usize = 1;
    while k < 19 {
        if n < limit {
            return k;
        }
        limit *= 10;
        k += 1;
    }
    if n < limit { k } else { k + 1 }
}

// Puts the last k digits of a number from `at` on, the last one first.
fn put_digits(out: &mut [u8], at: usize, n: u64, k: usize)
    requires { at + k ≤ length out.old }
    ensures { out.new ≡ written out.old at (last_digits 10 k n) }
{
    let mut rest = n;
    let mut i = k;
    while i > 0 {
        i -= 1;
        out[at + i] = 48 + (rest % 10) as u8;
        rest /= 10;
    }
}

fn put_decimal(out: &mut [u8], at: usize, n: u64) -> usize
    requires { at + 20 ≤ length out.old }
    ensures { Put out.old at (decimal n) result out.new }
{
    let k = places(n);
    put_digits(out, at, n, k);
    at + k
}

fn word_line(out: &mut [u8], at: usize, word: &[u8]) -> usize
    requires { at + length word.now + 1 ≤ length out.old }
    ensures { Put out.old at (line word.now) result out.new }
{
    let end = put(out, at, word);
    put(out, end, b"\n")
}

fn number_line(out: &mut [u8], at: usize, word: &[u8], n: u64) -> usize
    requires { at + length word.now + 22 ≤ length out.old }
    ensures { Put out.old at (number_line word.now n) result out.new }
{
    let space = put(out, at, word);
    let number = put(out, space, b" ");
    let end = put_decimal(out, number, n);
    put(out, end, b"\n")
}

// The line of an answer. By hand, and no Display: document 01 names fixed byte strings, copied into the
// buffer.
#[tactic(auto, unfolding(crate::specs::Lines::line_of))]
pub fn write_line(out: &mut [u8], at: usize, answer: Answer) -> usize
    requires { at + 32 ≤ length out.old }
    ensures { Put out.old at (line_of answer) result out.new }
{
    match answer {
        Answer::Ready => word_line(out, at, b"READY"),
        Answer::Taken => word_line(out, at, b"TAKEN"),
        Answer::Sent(p) => number_line(out, at, b"SENT", u64::from(p.id)),
        Answer::Idle => word_line(out, at, b"IDLE"),
        Answer::Closed(left) => number_line(out, at, b"CLOSED", left),
        Answer::Refused(number) => number_line(out, at, b"REFUSED", u64::from(number)),
    }
}

// The last line of a log of so many bytes.
#[tactic(auto, unfolding(crate::specs::Lines::last_line))]
pub fn last_line(out: &mut [u8], at: usize, bytes: usize) -> usize
    requires { at + 5 ≤ length out.old }
    ensures { Put out.old at (last_line bytes) result out.new }
{
    if bytes % RECORD_BYTES == 0 {
        return word_line(out, at, b"END");
    }
    word_line(out, at, b"TORN")
}
