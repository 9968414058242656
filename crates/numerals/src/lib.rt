// Numbers in decimal, in lists of bytes: what stands at a place, and what is written at one.
//     byte_at                     whether a byte stands at a place
//     event_field, delay_field    the number at a place, or none
//     put_byte, put_bytes         bytes written at a place, or no room
//     put_natural, put_integer    a number written at a place, or no room
// No caller is trusted: a place may lie beyond the end. Where there is no room nothing is written, and the place is given back. The promises are in
// specs/Fields.antt and Appending.antt.
#![tactic(auto)]

ghost use Rattle.std.specs.Prelude.{◌≡◌, true, false, List, [], ◌∷◌, ℕ, ◌+◌, ◌<◌, ◌≤◌, length, take};
ghost use Rattle.std.specs.List.{prefix_len};
ghost use Rattle.std.specs.Char.{is_ascii_digit};
ghost use Rattle.numerals.specs.Numbers.{Digits, value, Natural};
ghost use Rattle.numerals.specs.Fields.{ByteAt, NumberAt, FieldAt};
ghost use Rattle.numerals.specs.Appending.{Appended, Put, NaturalPut, IntegerPut};

// A number that stands at a place, and where it stops.
#[derive(Clone, Copy, Debug, PartialEq, Eq)]
pub struct Parsed<T> {
    pub value: T,
    pub next: usize,
}

// The digits of the longest field.
const MOST_DIGITS: usize = 7;

// Whether a byte stands at a place.
pub fn byte_at(text: &[u8], at: usize, byte: u8) -> bool
    ensures { ByteAt text.now at byte result }
{
    text.get(at) == Some(&byte)
}

// The digits at the front of a list: how many, and the number that they write.
#[derive(Clone, Copy, Debug, PartialEq, Eq)]
struct Front {
    digits: usize,
    number: usize,
}

// The digits at the front, gone through once: nineteen of them always fit.
#[tactic(auto, using(crate::proofs::Taking::front_none, crate::proofs::Taking::front_more, crate::proofs::Taking::so_far_below, crate::proofs::Taking::front_ends, crate::proofs::Taking::front_whole))]
fn front_digits(text: &[u8]) -> Front
    requires { length text.now ≤ 19 }
    ensures count { result.digits ≡ prefix_len is_ascii_digit text.now }
    ensures written { result.number ≡ value (take result.digits text.now) }
{
    let mut number = 0;
    for (digits, byte) in text.iter().enumerate() {
        if !byte.is_ascii_digit() {
            return Front { digits, number };
        }
        number = 10 * number + usize::from(*byte - b'0');
    }
    Front {
        digits: text.len(),
        number,
    }
}

// The event number at `at`: the digits there, if they are one to seven. No byte beyond the eighth is looked at, however many digits follow.
#[tactic(auto, using(crate::proofs::Taking::beyond))]
pub fn event_field(text: &[u8], at: usize) -> Option<Parsed<usize>>
    ensures { NumberAt text.now at result }
{
    let rest = text.get(at..)?;
    let found = front_digits(&rest[..rest.len().min(MOST_DIGITS + 1)]);
    if found.digits == 0 || found.digits > MOST_DIGITS {
        return None;
    }
    Some(Parsed {
        value: found.number,
        next: at + found.digits,
    })
}

// The delay at `at`: a minus or none, and one to seven digits.
#[tactic(auto, using(crate::proofs::FieldLaws::read_below, crate::proofs::FieldLaws::field_plain, crate::proofs::FieldLaws::field_minus))]
pub fn delay_field(text: &[u8], at: usize) -> Option<Parsed<i64>>
    ensures { FieldAt text.now at result }
{
    if byte_at(text, at, b'-') {
        let digits = event_field(text, at + 1)?;
        return Some(Parsed {
            value: -(digits.value as i64),
            next: digits.next,
        });
    }
    let digits = event_field(text, at)?;
    Some(Parsed {
        value: digits.value as i64,
        next: digits.next,
    })
}

// Kept: numbers are written here and not by Display, which wants a `fmt::Write`: the bytes go into a lent list, and `NaturalPut` fixes each. The writers give a
// place, and no Option. `Put` promises the place back where there is no room, and each caller has room, so it would unwrap them all.

// One byte.
pub fn put_byte(out: &mut [u8], at: usize, byte: u8) -> usize
    ensures { Put out.old at (byte ∷ []) out.new result }
{
    if at >= out.len() {
        return at;
    }
    out[at] = byte;
    at + 1
}

// These bytes.
pub fn put_bytes(out: &mut [u8], at: usize, bytes: &[u8]) -> usize
    ensures { Put out.old at bytes.now out.new result }
{
    if at > out.len() || out.len() - at < bytes.len() {
        return at;
    }
    let next = at + bytes.len();
    out[at..next].copy_from_slice(bytes);
    next
}

// How many digits x has.
#[tactic(auto, using(crate::proofs::Decimal::one_digit))]
fn places(x: usize) -> usize
    ensures { (bs : List ℕ) → Natural bs x → length bs ≡ result }
{
    match x.checked_ilog10() {
        Some(power) => power as usize + 1,
        None => 1,
    }
}

// Whether x fits so many places. A number has at most 20 digits.
#[tactic(auto, using(crate::proofs::WrittenNumbers::word_places))]
fn fits(x: usize, room: usize) -> bool
    ensures yes { result ≡ true → (bs : List ℕ) → Natural bs x → length bs ≤ room }
    ensures no { result ≡ false → (bs : List ℕ) → Natural bs x → room < length bs }
{
    room >= 20 || places(x) <= room
}

// x in decimal, where there is room.
#[tactic(auto, using(crate::proofs::WrittenNumbers::put_one))]
fn put_digits(out: &mut [u8], at: usize, x: usize) -> usize
    requires { (bs : List ℕ) → Natural bs x → at + length bs ≤ length out.old }
    ensures { (bs : List ℕ) × Natural bs x × Appended out.old at bs out.new result }
{
    let last = b'0' + (x % 10) as u8;
    if x < 10 {
        return put_byte(out, at, last);
    }
    let next = put_digits(out, at, x / 10);
    put_byte(out, next, last)
}

// x in decimal.
#[tactic(auto, using(crate::proofs::WrittenNumbers::natural_full))]
pub fn put_natural(out: &mut [u8], at: usize, x: usize) -> usize
    ensures { NaturalPut out.old at x out.new result }
{
    if !fits(x, out.len().saturating_sub(at)) {
        return at;
    }
    put_digits(out, at, x)
}

// z in decimal.
#[tactic(auto, using(crate::proofs::WrittenNumbers::put_plain_word, crate::proofs::WrittenNumbers::minus_full_word))]
pub fn put_integer(out: &mut [u8], at: usize, z: i64) -> usize
    ensures { IntegerPut out.old at z out.new result }
{
    let digits = z.unsigned_abs() as usize;
    if z >= 0 {
        return put_natural(out, at, digits);
    }
    if !fits(digits, out.len().saturating_sub(at).saturating_sub(1)) {
        return at;
    }
    let next = put_byte(out, at, b'-');
    put_digits(out, next, digits)
}
