// What admission is called for with: a form and a count of rank numbers.
use crate::mistake::Mistake;
use layout::form::Form;
use std::fmt;

// The counts that this program takes. The library has kinds of any count, so that such an enum would be the programs' alone there too.
#[derive(Clone, Copy, Debug, PartialEq, Eq)]
pub enum Ranks {
    OneNumber,
    TwoNumbers,
}

#[derive(Clone, Copy, Debug, PartialEq, Eq)]
pub struct Call {
    pub form: Form,
    pub ranks: Ranks,
}

impl<'a> TryFrom<&'a str> for Ranks {
    type Error = Mistake<'a>;

    fn try_from(word: &'a str) -> Result<Ranks, Mistake<'a>> {
        match word {
            "1" => Ok(Ranks::OneNumber),
            "2" => Ok(Ranks::TwoNumbers),
            _ => Err(Mistake::NoRanks(word)),
        }
    }
}

impl fmt::Display for Ranks {
    fn fmt<W: fmt::Write>(&self, f: &mut fmt::Formatter<W>) -> fmt::Result {
        f.write_str(match self {
            Ranks::OneNumber => "1",
            Ranks::TwoNumbers => "2",
        })
    }
}
