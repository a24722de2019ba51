// The longest sheet: every count at its highest, form 1, legal fields that vary. Its proof lines need not hold.
use crate::numbers::Numbers;
use std::alloc::{AllocError, Global};
use std::fmt::Write;

// 6 variables, 8 places, 16 steps, 8 propositions, 4 states, 12 edges, 4 start rows, guards and region rows, 2 rank numbers.
const HEAD: [u32; 14] = [0x10, 6, 8, 16, 8, 4, 12, 4, 4, 4, 0, 0, 1, 2];

const BOUND: u32 = 1_048_576;

#[derive(Drop)]
struct Maker {
    text: String,
    numbers: Numbers,
}

impl Maker {
    // A kind or a field of so many digits.
    fn digits(&mut self, count: usize, value: u32) -> Result<(), AllocError> {
        write!(self.text, "{value:0count$X}")
    }

    fn end(&mut self) -> Result<(), AllocError> {
        self.text.push('\n')
    }

    fn head(&mut self) -> Result<(), AllocError> {
        for number in HEAD {
            self.digits(2, number)?;
        }
        self.end()
    }

    // A short field below `count`.
    fn short(&mut self, count: u32) -> Result<u32, AllocError> {
        let value = self.numbers.below(count);
        self.digits(2, value)?;
        Ok(value)
    }

    // Numbers of a row.
    fn numbers(&mut self, count: u8) -> Result<(), AllocError> {
        for _ in 0..count {
            let value = self.numbers.next() & 0xffff;
            self.digits(4, value)?;
        }
        Ok(())
    }

    // The kind of a line is passed as the number that it begins with, which is all that is done with it.
    fn rows(&mut self, kind: u32, count: u8) -> Result<(), AllocError> {
        for _ in 0..count {
            self.digits(2, kind)?;
            self.numbers(7)?;
            self.end()?;
        }
        Ok(())
    }

    fn steps(&mut self) -> Result<(), AllocError> {
        for _ in 0..16 {
            self.digits(2, 0x30)?;
            self.short(8)?;
            self.short(8)?;
            self.numbers(42)?;
            self.end()?;
            self.rows(0x31, 4)?;
        }
        Ok(())
    }

    // Rows and places in turn.
    fn propositions(&mut self) -> Result<(), AllocError> {
        for _ in 0..4 {
            self.digits(2, 0x40)?;
            self.digits(4, 0)?;
            self.numbers(7)?;
            self.end()?;
            self.place_proposition()?;
        }
        Ok(())
    }

    fn place_proposition(&mut self) -> Result<(), AllocError> {
        self.digits(2, 0x40)?;
        self.digits(2, 1)?;
        self.short(8)?;
        for _ in 0..7 {
            self.digits(4, 0)?;
        }
        self.end()
    }

    fn states(&mut self) -> Result<(), AllocError> {
        for _ in 0..4 {
            self.digits(2, 0x50)?;
            self.short(2)?;
            self.end()?;
        }
        Ok(())
    }

    fn edges(&mut self) -> Result<(), AllocError> {
        for _ in 0..12 {
            self.digits(2, 0x51)?;
            self.short(4)?;
            self.short(4)?;
            let must = self.short(256)?;
            let apart = self.numbers.next() & 0xff & !must;
            self.digits(2, apart)?;
            self.end()?;
        }
        Ok(())
    }

    fn points(&mut self) -> Result<(), AllocError> {
        for _ in 0..32 {
            self.rows(0x60, 4)?;
            self.rows(0x61, 2)?;
        }
        Ok(())
    }

    // A proof line: a divisor and `count` multipliers.
    fn proof_line(&mut self, kind: u32, count: u8) -> Result<(), AllocError> {
        self.digits(2, kind)?;
        let divisor = self.numbers.below(BOUND).max(1);
        self.digits(8, divisor)?;
        for _ in 0..count {
            let multiplier = self.numbers.below(BOUND);
            self.digits(8, multiplier)?;
        }
        self.end()
    }

    fn proof_lines(&mut self, kind: u32, lines: u8, count: u8) -> Result<(), AllocError> {
        for _ in 0..lines {
            self.proof_line(kind, count)?;
        }
        Ok(())
    }

    fn moves(&mut self) -> Result<(), AllocError> {
        for _ in 0..192 {
            self.digits(2, 0x71)?;
            self.short(3)?;
            self.end()?;
            self.proof_lines(0x72, 8, 18)?;
        }
        Ok(())
    }
}

pub(crate) fn longest(heap: Global) -> Result<String, AllocError> {
    let mut maker = Maker {
        text: String::new(heap),
        numbers: Numbers::new(),
    };
    maker.head()?;
    maker.rows(0x20, 4)?;
    maker.steps()?;
    maker.propositions()?;
    maker.states()?;
    maker.edges()?;
    maker.points()?;
    maker.proof_lines(0x70, 6, 4)?;
    maker.moves()?;
    let Maker { text, .. } = maker;
    Ok(text)
}
