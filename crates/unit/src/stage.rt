// How far the console has come with a dossier.
use crate::present::Dossier;
use certificate::admit;
use certificate::admitted::{Admitted, EveryRun, Refused, SomeRun};
use certificate::kind::{OneNumber, RankKind, TwoNumbers};
use layout::form::Form;

// An admitted dossier of either form. Each arm below stands for another type, so that no one pattern takes two of them.
#[derive(Drop)]
pub enum AnyForm<K> {
    EveryRun(Admitted<Dossier, K, EveryRun>),
    SomeRun(Admitted<Dossier, K, SomeRun>),
}

#[derive(Drop)]
pub enum Stage {
    Read(Dossier),
    OneNumber(AnyForm<OneNumber>),
    TwoNumbers(AnyForm<TwoNumbers>),
}

impl<K: Drop> AnyForm<K> {
    fn dossier(&self) -> &Dossier {
        match self {
            AnyForm::EveryRun(admitted) => admitted.source(),
            AnyForm::SomeRun(admitted) => admitted.source(),
        }
    }

    fn release(self) -> Dossier {
        let (dossier, _) = match self {
            AnyForm::EveryRun(admitted) => admitted.release(),
            AnyForm::SomeRun(admitted) => admitted.release(),
        };
        dossier
    }
}

impl Stage {
    // The dossier, for reading.
    pub(crate) fn dossier(&self) -> &Dossier {
        match self {
            Stage::Read(dossier) => dossier,
            Stage::OneNumber(admitted) => admitted.dossier(),
            Stage::TwoNumbers(admitted) => admitted.dossier(),
        }
    }

    // The dossier, no longer admitted.
    pub(crate) fn release(self) -> Dossier {
        match self {
            Stage::Read(dossier) => dossier,
            Stage::OneNumber(admitted) => admitted.release(),
            Stage::TwoNumbers(admitted) => admitted.release(),
        }
    }
}

// Admits a dossier in a form; answers the number of proof lines judged. The form is a value here and a type there.
pub(crate) fn admit<K: RankKind>(
    dossier: Dossier,
    form: Form,
    kind: K,
) -> Result<(usize, AnyForm<K>), Refused<Dossier, K>> {
    match form {
        Form::EveryRun => {
            let (lines, admitted) = admit::admit(dossier, kind, EveryRun)?;
            Ok((lines, AnyForm::EveryRun(admitted)))
        }
        Form::SomeRun => {
            let (lines, admitted) = admit::admit(dossier, kind, SomeRun)?;
            Ok((lines, AnyForm::SomeRun(admitted)))
        }
    }
}
