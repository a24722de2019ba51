// Admission: a dossier passes every test of its form, or the first that fails is named.
ghost use Rattle.std.specs.Prelude.{◌≡◌, true, is_ok};
ghost use Rattle.dossier.specs.CaseTable.{WorkedTable};
ghost use Rattle.dossier.specs.Cases.{WorkedCases};
ghost use Rattle.dossier.specs.Laws.{AdmittedExactly, AdmittedByTests, LineLaw, OutsideLaw};
ghost use Rattle.certificate.specs.Admits.{answered, refusal_of, refusal_due};

use crate::admitted::{Admitted, Refused};
use crate::form_tests::FormTests;
use crate::kind::RankKind;
use sources::source::Source;

// Admits a dossier of a form at a rank kind and answers how many proof lines were judged; or hands the dossier back with the first
// test that fails.
pub fn admit<S: Source, K: RankKind, F: FormTests + Drop>(
    source: S,
    kind: K,
    form: F,
) -> Result<(usize, Admitted<S, K, F>), Refused<S, K>>
    ensures outcome { result ≡ answered (F.outcome K.kind (S.cells source)) source kind form }
    ensures refusal { refusal_of result ≡ refusal_due (F.outcome K.kind (S.cells source)) }
    ensures exactly { AdmittedExactly K.kind (S.cells source) }
    ensures by_tests { AdmittedByTests K.kind (S.cells source) }
    ensures promised { is_ok result ≡ true → F.Promise (S.cells source) }
    ensures outside { OutsideLaw }
    ensures line_law { LineLaw }
    ensures worked { WorkedCases }
    ensures table { WorkedTable }
{
    match F::judge(&source, &kind) {
        Ok(lines) => Ok((lines, Admitted { source, kind, form })),
        Err(fault) => Err(Refused {
            fault,
            source,
            kind,
        }),
    }
}
