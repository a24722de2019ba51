// Why a text is not read, in a sentence that quotes what stands in it.
use layout::fault::{FieldFault, LineFault, Place, ReadFault, Refusal};
use std::error::Error;
use std::fmt;

// The text is kept, so that the sentence can quote it.
#[derive(Debug, Drop)]
pub struct Misread {
    pub fault: ReadFault,
    pub text: Vec<u8>,
}

impl Error for Misread {}

// By hand: a derived message cannot match on the fault and look at the text.
impl fmt::Display for Misread {
    fn fmt<W: fmt::Write>(&self, f: &mut fmt::Formatter<W>) -> fmt::Result {
        let Refusal { first, second, .. } = Refusal::from(self.fault);
        let text = Text(&self.text);
        match self.fault {
            ReadFault::TooFewCells { needed, given } => write!(
                f,
                "the sheet has {needed} cells and {given} are handed over"
            ),
            ReadFault::Line(fault) => {
                let sentence = text.quoted(fault);
                write!(f, "line {first}, byte {second}: {sentence}")
            }
            ReadFault::Extra(place) => {
                let found = text.found(place);
                write!(
                    f,
                    "line {first}, byte {second}: {found} stands after the last line"
                )
            }
        }
    }
}

// A fault and the text that it stands in.
#[derive(Clone, Copy)]
struct Quoted<'a, F> {
    fault: F,
    text: Text<'a>,
}

impl<'a> fmt::Display for Quoted<'a, LineFault> {
    fn fmt<W: fmt::Write>(&self, f: &mut fmt::Formatter<W>) -> fmt::Result {
        let text = self.text;
        match self.fault {
            LineFault::Field(fault) => write!(f, "{}", text.quoted(fault)),
            LineFault::WrongKind(place) => write!(
                f,
                "a line of kind {} stands where another kind is due",
                text.kind(place)
            ),
            LineFault::NoLineFeed(place) => {
                write!(f, "{} stands where the line feed is due", text.found(place))
            }
            LineFault::Unended(_) => write!(f, "the text ends where the line feed is due"),
        }
    }
}

impl<'a> fmt::Display for Quoted<'a, FieldFault> {
    fn fmt<W: fmt::Write>(&self, f: &mut fmt::Formatter<W>) -> fmt::Result {
        let text = self.text;
        match self.fault {
            FieldFault::NoDigit(place) => write!(
                f,
                "{} stands where a digit (0 to 9, A to F) is due",
                text.found(place)
            ),
            FieldFault::LineFeed(_) => write!(f, "a line feed stands where a digit is due"),
            FieldFault::Over(_) => write!(f, "the text ends where a digit is due"),
            FieldFault::OutOfRange(place) => {
                write!(f, "the field {} is outside its range", text.field(place))
            }
        }
    }
}

// A sheet's text, to be quoted.
#[derive(Clone, Copy)]
struct Text<'a>(&'a [u8]);

impl<'a> Text<'a> {
    fn quoted<F>(self, fault: F) -> Quoted<'a, F> {
        Quoted { fault, text: self }
    }

    fn found(self, place: Place) -> Found {
        Found(self.0.get(place.byte).copied())
    }

    fn kind(self, place: Place) -> Digits<'a> {
        Digits(start(rest(self.0, place.byte), 2))
    }

    // The field that begins at a place.
    fn field(self, place: Place) -> Digits<'a> {
        let line = line_before(self.0, place.byte);
        Digits(start(rest(self.0, place.byte), width(line)))
    }
}

// A byte, as a character in quotes where it can be printed.
#[derive(Clone, Copy)]
struct Found(Option<u8>);

impl fmt::Display for Found {
    fn fmt<W: fmt::Write>(&self, f: &mut fmt::Formatter<W>) -> fmt::Result {
        match self.0 {
            Some(byte @ b' '..=b'~') => write!(f, "'{}'", char::from(byte)),
            Some(byte) => write!(f, "0x{byte:02X}"),
            None => f.write_str("no byte"),
        }
    }
}

// Digits of the text, as they stand there.
#[derive(Clone, Copy)]
struct Digits<'a>(&'a [u8]);

impl<'a> fmt::Display for Digits<'a> {
    fn fmt<W: fmt::Write>(&self, f: &mut fmt::Formatter<W>) -> fmt::Result {
        for byte in self.0 {
            write!(f, "{}", char::from(*byte))?;
        }
        Ok(())
    }
}

// The bytes from a place on.
fn rest(text: &[u8], from: usize) -> &[u8] {
    text.get(from..).unwrap_or(&[])
}

// At most `count` bytes.
fn start(text: &[u8], count: usize) -> &[u8] {
    text.get(..count).unwrap_or(text)
}

// What stands before a byte in its line.
fn line_before(text: &[u8], byte: usize) -> &[u8] {
    start(text, byte)
        .rsplit(|found| *found == b'\n')
        .next()
        .unwrap_or(&[])
}

// How many digits the field has before which these bytes of its line stand: the widths of the layout, told again only to quote
// a field that was already judged; an enum of kinds would be made for these words alone.
fn width(line: &[u8]) -> usize {
    match start(line, 2) {
        b"20" | b"31" | b"60" | b"61" => 4,
        b"30" | b"40" if line.len() >= 6 => 4,
        b"70" | b"72" | b"80" | b"82" => 8,
        _ => 2,
    }
}
