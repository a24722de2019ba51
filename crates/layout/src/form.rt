// The two forms of a certificate.
ghost use Rattle.std.specs.Prelude.{◌≡◌, Some};
ghost use Rattle.layout.specs.Forms.{form_number, form_name, Named};

use std::fmt;
use std::str::FromStr;

#[derive(Clone, Copy, Debug, PartialEq, Eq)]
pub enum Form {
    EveryRun,
    SomeRun,
}

// The number that a head has for a form.
impl From<Form> for u16 {
    ghost from_gives = { λ form number. number ≡ form_number form };

    fn from(form: Form) -> u16 {
        match form {
            Form::EveryRun => 1,
            Form::SomeRun => 2,
        }
    }
}

impl fmt::Display for Form {
    ghost output = { λ form. Some (form_name form) };

    fn fmt<W: fmt::Write>(&self, f: &mut fmt::Formatter<W>) -> fmt::Result {
        f.write_str(match self {
            Form::EveryRun => "every-run",
            Form::SomeRun => "some-run",
        })
    }
}

// A word that names no form.
#[derive(Clone, Copy, Debug, PartialEq, Eq)]
pub struct UnknownForm;

impl FromStr for Form {
    type Err = UnknownForm;

    ghost from_str_gives = { Named };

    fn from_str(word: &str) -> Result<Form, UnknownForm> {
        match word {
            "every-run" => Ok(Form::EveryRun),
            "some-run" => Ok(Form::SomeRun),
            _ => Err(UnknownForm),
        }
    }
}
