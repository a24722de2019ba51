// Dossiers that admission has judged. A dossier moves from one type to the next, and the form is part of the type.
ghost use Rattle.std.specs.Prelude.{◌≡◌};

use dossier::fault::AdmitFault;

// Marks an admitted every-run dossier.
#[derive(Clone, Copy)]
pub struct EveryRun;

// Marks an admitted some-run dossier.
#[derive(Clone, Copy)]
pub struct SomeRun;

// An admitted dossier, with the rank kind that it was admitted at and its form. Only admission makes one.
#[derive(Drop)]
pub struct Admitted<S, K, F> {
    pub(crate) source: S,
    pub(crate) kind: K,
    pub(crate) form: F,
}

// A dossier that is not admitted, as it was handed over, and the test that failed first.
#[derive(Drop)]
pub struct Refused<S, K> {
    pub fault: AdmitFault,
    pub source: S,
    pub kind: K,
}

impl<S, K, F: Drop> Admitted<S, K, F> {
    // The dossier, for reading.
    pub fn source(&self) -> &S
        ensures { result.now ≡ self.now.source }
    {
        &self.source
    }

    // The dossier and its rank kind, no longer admitted.
    pub fn release(self) -> (S, K)
        ensures { result ≡ (self.source, self.kind) }
    {
        let Admitted {
            source,
            kind,
            form: _,
        } = self;
        (source, kind)
    }
}
