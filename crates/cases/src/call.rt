// What admission is called for with: a form and a count of rank numbers. The console answers a wrong word by a
// sentence of its own; here the reader of the table takes any other count for two.
use anyhow::bail;
use layout::form::Form;
use std::str::FromStr;

// The counts that this program takes, as the console has its own: the library has kinds of any count.
#[derive(Clone, Copy, Debug, PartialEq, Eq)]
pub enum Ranks {
    OneNumber,
    TwoNumbers,
}

#[derive(Clone, Copy, Debug, PartialEq, Eq)]
pub struct Call {
    pub form: Form,
    pub ranks: Ranks,
}

impl FromStr for Ranks {
    type Err = anyhow::Error;

    fn from_str(word: &str) -> anyhow::Result<Ranks> {
        match word {
            "1" => Ok(Ranks::OneNumber),
            "2" => Ok(Ranks::TwoNumbers),
            _ => bail!("no count of rank numbers"),
        }
    }
}
