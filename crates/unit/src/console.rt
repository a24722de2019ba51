// The console's state and what each command does to it.
use crate::answer::{Answer, Failure};
use crate::call::{Call, Ranks};
use crate::command::Command;
use crate::description::Description;
use crate::held::Held;
use crate::misread::Misread;
use crate::mistake::Mistake;
use crate::present::Dossier;
use crate::refused::{Reason, Refused};
use crate::stage::{AnyForm, Stage, admit};
use crate::unmet::Unmet;
use certificate::admitted::Refused as NotAdmitted;
use certificate::kind::{ByFirstDifference, RankKind};
use layout::fault::Refusal;
use sheet::read::read;
use sources::source::Source;
use std::alloc::Global;
use std::fs;
use std::rt::Files;

#[derive(Drop)]
pub struct Console {
    stage: Option<Stage>,
}

impl Console {
    pub(crate) fn new() -> Console {
        Console { stage: None }
    }

    pub(crate) fn obey<'a>(
        &mut self,
        rt: &(impl Files + AllocGlobal),
        line: &'a str,
    ) -> Result<Answer, Failure<'a>> {
        match Command::try_from(line)? {
            Command::Read { file, cells } => self.read(rt, file, cells),
            Command::BuiltIn => Ok(self.built_in()),
            Command::Describe => self.describe(),
            Command::Admit(call) => self.admit(call),
        }
    }

    // The stage is set last, so that a sheet that is refused leaves what was there.
    fn read<'a>(
        &mut self,
        rt: &(impl Files + AllocGlobal),
        file: &'a str,
        room: usize,
    ) -> Result<Answer, Failure<'a>> {
        let Ok(text) = fs::read(rt, file) else {
            // where there is no memory for the name either, that is what is missing
            let _ = String::from_str(rt.alloc(), file)?;
            return Err(Failure::Mistaken(Mistake::CannotOpen(file)));
        };
        let held = Held::open(cells_of(rt.alloc(), text, room)?).map_err(Refused::from)?;
        let cells = held.count();
        self.stage = Some(Stage::Read(Dossier::Held(held)));
        Ok(Answer::Read { cells })
    }

    fn built_in(&mut self) -> Answer {
        let dossier = Dossier::BuiltIn;
        let cells = dossier.count();
        self.stage = Some(Stage::Read(dossier));
        Answer::BuiltIn { cells }
    }

    fn describe<'a>(&self) -> Result<Answer, Failure<'a>> {
        let stage = self.stage.as_ref().ok_or(Mistake::NoDossier)?;
        Ok(Answer::Described(Description(stage.dossier().head())))
    }

    // The count of numbers is a value here and a type of the kind.
    fn admit<'a>(&mut self, call: Call) -> Result<Answer, Failure<'a>> {
        match call.ranks {
            Ranks::OneNumber => self.admit_at(ByFirstDifference::<1>, call, Stage::OneNumber),
            Ranks::TwoNumbers => self.admit_at(ByFirstDifference::<2>, call, Stage::TwoNumbers),
        }
    }

    // A dossier that is admitted already is judged anew.
    fn admit_at<'a, K: RankKind + Drop, F: FnOnce(AnyForm<K>) -> Stage>(
        &mut self,
        kind: K,
        call: Call,
        stage: F,
    ) -> Result<Answer, Failure<'a>>
        requires { F.IsAlwaysCallable stage }
    {
        let dossier = self.stage.take().ok_or(Mistake::NoDossier)?.release();
        match admit(dossier, call.form, kind) {
            Ok((lines, admitted)) => {
                self.stage = Some(stage(admitted));
                Ok(Answer::Admitted { lines })
            }
            Err(refused) => Err(Failure::Refused(self.keep(refused, call))),
        }
    }

    // Keeps the dossier that was handed back and says what it does not meet.
    fn keep<K: Drop>(&mut self, refused: NotAdmitted<Dossier, K>, call: Call) -> Refused {
        let NotAdmitted { fault, source, .. } = refused;
        let unmet = Unmet::of(&source, fault, call);
        self.stage = Some(Stage::Read(source));
        Refused {
            refusal: Refusal::from(fault),
            reason: unmet.map_or(Reason::NoSuchMove, Reason::Unmet),
        }
    }
}

// The cells of a sheet's text, read into a buffer of `room` cells.
fn cells_of<'a>(heap: Global, text: Vec<u8>, room: usize) -> Result<Vec<i32>, Failure<'a>> {
    let mut cells = vec![in heap; 0; room]?;
    match read(&text, &mut cells) {
        Ok(count) => {
            cells.truncate(count);
            Ok(cells)
        }
        Err(fault) => Err(Failure::Refused(Refused::from(Misread { fault, text }))),
    }
}
