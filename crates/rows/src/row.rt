// What a row gives: words that one blank sets apart, each a number or bytes.
ghost use Rattle.std.specs.Prelude.{◌≡◌, ◌+◌, ◌-◌, ◌%◌, ◌^◌, ◌<◌, ◌≤◌, if◌then◌else◌, pos, negsuc, take, drop, vec_len};
ghost use Rattle.rows.specs.declared.row.TheConstants.{BYTES};

use std::alloc::{AllocError, Global};

// How many numbers and bytes of a row count.
pub const NUMBERS: usize = 4096;

const BYTES: usize = 524288;

// Up to this place bytes are given to a call, and are stale in a buffer.
pub const SPACE: usize = 262400;

// A decimal number with its sign. Each width takes what fits.
#[derive(Clone, Copy, Debug, Default, PartialEq, Eq)]
pub struct Number {
    magnitude: u64,
    negative: bool,
}

impl Number {
    fn parse(word: &[u8]) -> Option<Number> {
        let digits = word.strip_prefix(b"-").unwrap_or(word);
        if !digits.first()?.is_ascii_digit() {
            return None;
        }
        Some(Number {
            magnitude: decimal(digits),
            negative: digits.len() < word.len(),
        })
    }
}

impl From<Number> for u64 {
    ghost from_gives = { λ number r. r ≡ number.magnitude };

    fn from(number: Number) -> u64 {
        number.magnitude
    }
}

// Its lowest 32 bits.
impl From<Number> for u32 {
    ghost from_gives = { λ number r. r ≡ number.magnitude % 2 ^ 32 };

    fn from(number: Number) -> u32 {
        (number.magnitude % 4294967296) as u32
    }
}

// Its lowest 31 bits, with the sign.
impl From<Number> for i32 {
    ghost from_gives = { λ number r. r ≡ (if number.negative then negsuc ((number.magnitude + (2 ^ 31 - 1)) % 2 ^ 31) else pos (number.magnitude % 2 ^ 31)) };

    fn from(number: Number) -> i32 {
        if number.negative {
            !((number.magnitude.wrapping_sub(1) % 2147483648) as i32)
        } else {
            (number.magnitude % 2147483648) as i32
        }
    }
}

// Each byte's lowest four bits are a digit. By hand: `parse` refuses other bytes than digits, and more than 64 bits.
fn decimal(digits: &[u8]) -> u64 {
    digits.iter().fold(0u64, |n, digit| {
        (n % 1844674407370955162 * 10).wrapping_add(u64::from(*digit % 16))
    })
}

// By hand: `char::to_digit` has no value for a byte that is no digit.
fn hexadecimal(digit: u8) -> u8
    ensures { result < 16 }
{
    if digit <= b'9' {
        digit % 16
    } else {
        (digit % 16 + 9) % 16
    }
}

pub fn is_blank(byte: &u8) -> bool {
    *byte == b' '
}

// A part of a list, from one place to another, cut where the list ends.
fn between<T>(list: &[T], from: u64, to: u64) -> &[T]
    ensures { result.now ≡ drop from (take to list.now) }
{
    let front = &list[..(to as usize).min(list.len())];
    &front[(from as usize).min(front.len())..]
}

// The numbers and the bytes of a row. A number that the row leaves out is that of an earlier row.
#[derive(Drop)]
pub struct Row {
    numbers: Vec<Number>,
    bytes: Vec<u8>,
    ghost bounded: { vec_len bytes ≤ BYTES },
}

impl Row {
    pub fn new(alloc: Global) -> Result<Row, AllocError> {
        Ok(Row {
            numbers: vec![in alloc; Number::default(); NUMBERS]?,
            bytes: Vec::new(alloc),
        })
    }

    // Takes what the words of a line give.
    pub fn read(&mut self, line: &[u8]) -> Result<(), AllocError> {
        let numbers = line.split(is_blank).filter_map(Number::parse);
        for (place, number) in self.numbers.iter_mut().zip(numbers) {
            *place = number;
        }
        self.read_bytes(line)
    }

    // Bytes are digits after an `x`, and `*N` is the last byte N times more.
    fn read_bytes(&mut self, line: &[u8]) -> Result<(), AllocError> {
        self.bytes.clear();
        for word in line.split(is_blank) {
            match word {
                [b'x', digits @ ..] => self.push_bytes(digits)?,
                [b'*', count @ ..] => self.repeat_last(decimal(count))?,
                _ => {}
            }
        }
        Ok(())
    }

    // Each pair of digits is a byte.
    fn push_bytes(&mut self, digits: &[u8]) -> Result<(), AllocError> {
        for pair in digits.chunks_exact(2) {
            if let [high, low] = pair
                && self.bytes.len() < BYTES
            {
                self.bytes
                    .push(hexadecimal(*high) * 16 + hexadecimal(*low))?;
            }
        }
        Ok(())
    }

    fn repeat_last(&mut self, count: u64) -> Result<(), AllocError> {
        let Some(last) = self.bytes.last().copied() else {
            return Ok(());
        };
        let len = self.bytes.len().saturating_add(count as usize);
        self.bytes.resize(len.min(BYTES), last)
    }

    // The number at a place, 0 past the last one.
    pub fn number<T: From<Number>>(&self, place: usize) -> T {
        T::from(self.numbers.get(place).copied().unwrap_or_default())
    }

    // The numbers from one place to another.
    pub fn list<T: From<Number> + Drop>(&self, from: u64, to: u64) -> Result<Vec<T>, AllocError> {
        between(&self.numbers, from, to)
            .iter()
            .map(|number| T::from(*number))
            .collect(*self.numbers.allocator())
    }

    pub fn bytes(&self) -> &[u8] {
        &self.bytes
    }

    // Two parts of the bytes: up to a place, and from there on.
    pub fn halves(&self, place: u64) -> (&[u8], &[u8]) {
        (
            between(&self.bytes, 0, place),
            between(&self.bytes, place, SPACE as u64),
        )
    }
}
