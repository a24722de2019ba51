// The methods of a reader.
ghost use Rattle.std.specs.Prelude.{◌≡◌, ◌+◌, ◌^◌, ◌<◌, ◌≤◌, length, drop, IfOk, OnOk};
ghost use Rattle.std.specs.Option.{unwrap_or};
ghost use Rattle.layout.specs.Reading as bytes;
ghost use Rattle.layout.specs.Text.{digits_of};
ghost use Rattle.layout.proofs.CheckLaw.{text_lawful};
ghost use Rattle.sheet.specs.Digit.{one_digit, Whole};

use crate::reader::Reader;
use crate::tests_of::holds_in;
use crate::walk::Fields;
use layout::fault::{FieldFault, LineFault, Place};
use layout::field::{Digits, Range};

// What stands for a byte that is no digit: a number that it enters is past every number of eight digits. With each byte
// judged by itself a text is read at 306 MB/s, and so at 430.
const NO: u64 = 0x1_0000_0000;

// The value of each digit's byte, and NO for every other byte.
const NIBBLES: [u64; 256] = [
    NO, NO, NO, NO, NO, NO, NO, NO, NO, NO, NO, NO, NO, NO, NO, NO, NO, NO, NO, NO, NO, NO, NO, NO,
    NO, NO, NO, NO, NO, NO, NO, NO, NO, NO, NO, NO, NO, NO, NO, NO, NO, NO, NO, NO, NO, NO, NO, NO,
    0, 1, 2, 3, 4, 5, 6, 7, 8, 9, NO, NO, NO, NO, NO, NO, NO, 10, 11, 12, 13, 14, 15, NO, NO, NO,
    NO, NO, NO, NO, NO, NO, NO, NO, NO, NO, NO, NO, NO, NO, NO, NO, NO, NO, NO, NO, NO, NO, NO, NO,
    NO, NO, NO, NO, NO, NO, NO, NO, NO, NO, NO, NO, NO, NO, NO, NO, NO, NO, NO, NO, NO, NO, NO, NO,
    NO, NO, NO, NO, NO, NO, NO, NO, NO, NO, NO, NO, NO, NO, NO, NO, NO, NO, NO, NO, NO, NO, NO, NO,
    NO, NO, NO, NO, NO, NO, NO, NO, NO, NO, NO, NO, NO, NO, NO, NO, NO, NO, NO, NO, NO, NO, NO, NO,
    NO, NO, NO, NO, NO, NO, NO, NO, NO, NO, NO, NO, NO, NO, NO, NO, NO, NO, NO, NO, NO, NO, NO, NO,
    NO, NO, NO, NO, NO, NO, NO, NO, NO, NO, NO, NO, NO, NO, NO, NO, NO, NO, NO, NO, NO, NO, NO, NO,
    NO, NO, NO, NO, NO, NO, NO, NO, NO, NO, NO, NO, NO, NO, NO, NO, NO, NO, NO, NO, NO, NO, NO, NO,
    NO, NO, NO, NO, NO, NO, NO, NO, NO, NO, NO, NO, NO, NO,
];

fn nibble(b: u8) -> u64
    ensures { result ≡ unwrap_or (bytes.nibble b) 4294967296 }
{
    NIBBLES[b as usize]
}

// The number of a few digits, if every byte is one. No byte is judged by itself, which is what makes it fast.
fn all_digits(part: &[u8]) -> Option<u32>
    requires { length part.now ≤ 8 }
    ensures { Whole part.now result }
{
    let value = part.iter().fold(0, |value, b| value * 16 + nibble(*b));
    if value < NO { Some(value as u32) } else { None }
}

// The number that the digits stand for.
fn number_of(digits: Digits, raw: u32) -> i64
    requires { raw < 16 ^ digits_of digits }
    ensures { result ≡ bytes.number_of digits raw }
{
    match digits {
        Digits::Two | Digits::Eight => raw as i64,
        Digits::Four => (raw as u16).cast_signed() as i64,
        Digits::Value => raw.cast_signed() as i64,
    }
}

// Each method says that the text stays and where the reader stands behind what it took: no type can hold what a call leaves.
impl<'a> Reader<'a> {
    pub(crate) fn new(text: &'a [u8]) -> Self
        ensures over { result.text ≡ text.entry }
        ensures at_start { result.place ≡ bytes.start }
    {
        Reader {
            text,
            place: Place { line: 1, byte: 0 },
        }
    }

    fn digit(&mut self) -> Result<u8, FieldFault>
        ensures same { self.new.text ≡ self.old.text }
        ensures read { result ≡ one_digit (drop self.old.place.byte self.old.text.now) self.old.place }
        ensures behind { IfOk result (λ d. (d < 16) × (self.new.place ≡ bytes.ahead self.old.place 1)) }
    {
        let at = self.place.byte;
        let Some(&b) = self.text.get(at) else {
            return Err(FieldFault::Over(self.place));
        };
        let digit = nibble(b);
        if digit < 16 {
            self.place.byte = at + 1;
            return Ok(digit as u8);
        }
        if b == b'\n' {
            Err(FieldFault::LineFeed(self.place))
        } else {
            Err(FieldFault::NoDigit(self.place))
        }
    }

    // Digits one by one, up to the first byte that is none: its place is what the fast way of `digits` can't tell.
    fn judged_digits(&mut self, count: u8) -> Result<u32, FieldFault>
        requires { count ≤ 8 }
        ensures same { self.new.text ≡ self.old.text }
        ensures read { result ≡ bytes.digits count 0 (drop self.old.place.byte self.old.text.now) self.old.place }
        ensures behind { IfOk result (λ v. (v < 16 ^ count) × (self.new.place ≡ bytes.ahead self.old.place count)) }
    {
        let mut value = 0;
        for _ in 0..count {
            let digit = self.digit()?;
            value = value * 16 + digit as u32;
        }
        Ok(value)
    }

    fn digits(&mut self, count: u8) -> Result<u32, FieldFault>
        requires { count ≤ 8 }
        ensures same { self.new.text ≡ self.old.text }
        ensures read { result ≡ bytes.digits count 0 (drop self.old.place.byte self.old.text.now) self.old.place }
        ensures behind { IfOk result (λ v. (v < 16 ^ count) × (self.new.place ≡ bytes.ahead self.old.place count)) }
    {
        let at = self.place.byte;
        let size = count as usize;
        if size <= self.text.len() - at {
            let end = at + size;
            if let Some(value) = all_digits(&self.text[at..end]) {
                self.place.byte = end;
                return Ok(value);
            }
        }
        self.judged_digits(count)
    }

    // A field's digits. Each count is a constant, so that its loop can be unrolled; one arm for both kinds of eight digits was tried,
    // and reads a sheet an eighth slower.
    fn raw(&mut self, digits: Digits) -> Result<u32, FieldFault>
        ensures same { self.new.text ≡ self.old.text }
        ensures read { result ≡ bytes.digits (digits_of digits) 0 (drop self.old.place.byte self.old.text.now) self.old.place }
        ensures behind { IfOk result (λ v. (v < 16 ^ digits_of digits) × (self.new.place ≡ bytes.ahead self.old.place (digits_of digits))) }
    {
        match digits {
            Digits::Two => self.digits(2),
            Digits::Four => self.digits(4),
            Digits::Eight => self.digits(8),
            Digits::Value => self.digits(8),
        }
    }

    // A field: its digits, then the test of its value.
    fn take_field(&mut self, digits: Digits, range: Range) -> Result<i32, FieldFault>
        ensures same { self.new.text ≡ self.old.text }
        ensures read { result ≡ bytes.field_at self.old.text.now digits range self.old.place }
        ensures behind { OnOk result (self.new.place ≡ bytes.ahead self.old.place (digits_of digits)) }
    {
        // the byte alone: the whole place would wait for the store of the last field
        let start = self.place.byte;
        let raw = self.raw(digits)?;
        let value = number_of(digits, raw);
        if holds_in(range, value) {
            Ok(value as i32)
        } else {
            Err(FieldFault::OutOfRange(Place {
                line: self.place.line,
                byte: start,
            }))
        }
    }
}

impl<'a> Fields for Reader<'a> {
    type Fault = LineFault;

    ghost supply = { λ s. bytes.text_supply s.text.now };

    ghost lawful = { λ s. text_lawful s.text.now };

    ghost place = { λ s. s.place };

    fn kind(&mut self, due: u8) -> Result<(), LineFault> {
        let start = self.place.byte;
        let kind = self.digits(2)?;
        if kind == due as u32 {
            Ok(())
        } else {
            Err(LineFault::WrongKind(Place {
                line: self.place.line,
                byte: start,
            }))
        }
    }

    fn field(&mut self, digits: Digits, range: Range) -> Result<i32, LineFault> {
        let value = self.take_field(digits, range)?;
        Ok(value)
    }

    fn end(&mut self) -> Result<(), LineFault> {
        let at = self.place;
        let Some(&b) = self.text.get(at.byte) else {
            return Err(LineFault::Unended(at));
        };
        if b != b'\n' {
            return Err(LineFault::NoLineFeed(at));
        }
        self.place = Place {
            line: at.line + 1,
            byte: at.byte + 1,
        };
        Ok(())
    }
}
