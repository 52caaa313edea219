// The lines that `probe` prints, as bytes in lent memory. A writer answers where the next byte goes.
ghost use Rattle.std.specs.Prelude.{◌≡◌, [], ◌∷◌, ◌++◌, ℕ, suc, ◌+◌, ◌<◌, ◌≤◌, ◌^◌, length};
ghost use Rattle.rounding.specs.Stored.{stored_of};
ghost use Rattle.shape.specs.Memory.{Put};
ghost use Rattle.surface.specs.Text.{digit, digits_of, decimal, hex_digit, hexadecimal, normal_text, lane_text, none_line, asked_line, refused_line};

use crate::memory::put;
use rounding::bits::stored_word;
use vector::coords::Vector;

// ---- numbers

// A number in decimal, with no leading zero: what comes before its last digit, if anything does, and
// that digit.
fn put_decimal(out: &mut [u8], at: usize, n: u32) -> usize
    requires { at + length (decimal n) ≤ length out.old }
    ensures { (k : ℕ) → n < 10 ^ suc k → Put out.old out.new at (digits_of k n) result }
{
    if n < 10 {
        return put(out, at, &[b'0' + n as u8]);
    }
    let next = put_decimal(out, at, n / 10);
    put(out, next, &[b'0' + (n % 10) as u8])
}

#[tactic(auto, unfolding(crate::specs::Text::hex_digit))]
fn hex_digit(d: u32) -> u8
    requires { d < 16 }
    ensures { result ≡ hex_digit d }
{
    char::from_digit(d, 16).unwrap() as u8
}

// A word in hexadecimal, in eight digits.
#[tactic(auto, unfolding(crate::specs::Text::hexadecimal))]
fn put_hexadecimal(out: &mut [u8], at: usize, w: u32) -> usize
    requires { at + 8 ≤ length out.old }
    ensures { Put out.old out.new at (hexadecimal w) result }
{
    let digits = [
        hex_digit(w / 0x1000_0000),
        hex_digit(w / 0x100_0000 % 16),
        hex_digit(w / 0x10_0000 % 16),
        hex_digit(w / 0x1_0000 % 16),
        hex_digit(w / 0x1000 % 16),
        hex_digit(w / 0x100 % 16),
        hex_digit(w / 0x10 % 16),
        hex_digit(w % 16),
    ];
    put(out, at, &digits)
}

// ---- a word and what comes after it

pub(crate) fn put_number(out: &mut [u8], at: usize, word: &[u8], n: u32) -> usize
    requires { at + length word.now + length (decimal n) ≤ length out.old }
    ensures put { Put out.old out.new at (word.now ++ decimal n) result }
    ensures value { result ≡ at + length word.now + length (decimal n) }
{
    let next = put(out, at, word);
    put_decimal(out, next, n)
}

// A float by its bits, as the index stores it.
fn put_float(out: &mut [u8], at: usize, word: &[u8], x: f32) -> usize
    requires { at + length word.now + 8 ≤ length out.old }
    ensures put { Put out.old out.new at (word.now ++ hexadecimal (stored_of x)) result }
    ensures value { result ≡ at + length word.now + 8 }
{
    let next = put(out, at, word);
    put_hexadecimal(out, next, stored_word(x))
}

#[tactic(auto, using(shape::proofs::Laws::Memory::put_then), unfolding(crate::specs::Text::normal_text))]
fn put_normal(out: &mut [u8], at: usize, n: Vector) -> usize
    requires { at + 34 ≤ length out.old }
    ensures put { Put out.old out.new at (normal_text n) result }
    ensures value { result ≡ at + 34 }
{
    let at = put_float(out, at, b" normal ", n.x);
    let at = put_float(out, at, b" ", n.y);
    put_float(out, at, b" ", n.z)
}

// A lane by its id, if there is one.
#[tactic(auto, using(crate::proofs::Laws::Text::lane_none_size, crate::proofs::Laws::Text::lane_some_size), unfolding(crate::specs::Text::lane_text))]
fn put_lane(out: &mut [u8], at: usize, lane: Option<u32>) -> usize
    requires { at + length (lane_text lane) ≤ length out.old }
    ensures { Put out.old out.new at (lane_text lane) result }
{
    match lane {
        Some(id) => put_number(out, at, b" lane ", id),
        None => put(out, at, b" lane -"),
    }
}

// ---- lines

// The answer to a question: height, normal, triangle and the lane's id, if it has one.
#[derive(Clone, Copy)]
pub(crate) struct FoundLine {
    pub height: f32,
    pub normal: Vector,
    pub triangle: u32,
    pub lane: Option<u32>,
}

impl FoundLine {
    ghost use Rattle.surface.specs.ReportSteps.{found_text};

    // The line of question k.
    pub(crate) fn put(self, out: &mut [u8], at: usize, k: u32) -> usize
        requires { at + 64 + length (decimal k) + length (decimal self.triangle) + length (lane_text self.lane) ≤ length out.old }
        ensures { Put out.old out.new at (found_text k self) result }
    {
        let at = put_number(out, at, b"at ", k);
        let at = put_float(out, at, b" height ", self.height);
        let at = put_normal(out, at, self.normal);
        let at = put_number(out, at, b" triangle ", self.triangle);
        let at = put_lane(out, at, self.lane);
        put(out, at, b"\n")
    }

    // How long that is. Its words and floats take 64 bytes.
    pub(crate) fn length(self, k: u32) -> usize
        ensures { (result ≡ 64 + length (decimal k) + length (decimal self.triangle) + length (lane_text self.lane)) × (result ≤ 100) }
    {
        64 + decimal_length(k) + decimal_length(self.triangle) + lane_length(self.lane)
    }
}

// That question k has no answer.
#[tactic(auto, using(shape::proofs::Laws::Memory::put_then), unfolding(crate::specs::Text::none_line))]
pub(crate) fn put_none(out: &mut [u8], at: usize, k: u32) -> usize
    requires { at + 9 + length (decimal k) ≤ length out.old }
    ensures { Put out.old out.new at (none_line k) result }
{
    let at = put_number(out, at, b"at ", k);
    put(out, at, b" none\n")
}

// A line of two words, each with a number.
#[derive(Clone, Copy)]
pub(crate) struct PairLine<'a> {
    first: &'a [u8],
    n: u32,
    second: &'a [u8],
    m: u32,
    ghost short: { length first.now + length second.now < 14 },
}

impl PairLine<'_> {
    ghost use Rattle.surface.specs.ReportSteps.{pair_text};

    // The last line.
    #[tactic(auto, unfolding(crate::specs::Text::asked_line))]
    pub(crate) fn asked(asked: u32, found: u32) -> PairLine<'static>
        ensures { pair_text result ≡ asked_line asked found }
    {
        PairLine {
            first: b"asked ",
            n: asked,
            second: b" found ",
            m: found,
        }
    }

    // A refusal, by its number and place.
    #[tactic(auto, unfolding(crate::specs::Text::refused_line))]
    pub(crate) fn refused(number: u32, place: u32) -> PairLine<'static>
        ensures { pair_text result ≡ refused_line number place }
    {
        PairLine {
            first: b"refused ",
            n: number,
            second: b" at ",
            m: place,
        }
    }

    pub(crate) fn put(self, out: &mut [u8], at: usize) -> usize
        requires { at + length (pair_text self) ≤ length out.old }
        ensures { Put out.old out.new at (pair_text self.entry) result }
    {
        let at = put_number(out, at, self.first, self.n);
        let at = put_number(out, at, self.second, self.m);
        put(out, at, b"\n")
    }

    // How long that is.
    pub(crate) fn length(self) -> usize
        ensures { (result ≡ length (pair_text self.entry)) × (result ≤ 34) }
    {
        let words = self.first.len() + self.second.len() + 1;
        words + decimal_length(self.n) + decimal_length(self.m)
    }
}

// ---- how long they are

// A number in decimal.
#[tactic(auto, using(crate::proofs::Laws::Text::digits_long))]
fn decimal_length(n: u32) -> usize
    ensures { (result ≡ length (decimal n)) × (result ≤ 10) }
{
    1 + n.max(1).ilog10() as usize
}

// What is said of a lane.
#[tactic(auto, using(crate::proofs::Laws::Text::lane_none_size, crate::proofs::Laws::Text::lane_some_size))]
fn lane_length(lane: Option<u32>) -> usize
    ensures { (result ≡ length (lane_text lane)) × (result ≤ 16) }
{
    match lane {
        Some(id) => 6 + decimal_length(id),
        None => 7,
    }
}

// The line that there is none.
pub(crate) fn none_length(k: u32) -> usize
    ensures { (result ≡ 9 + length (decimal k)) × (result ≤ 100) }
{
    9 + decimal_length(k)
}
