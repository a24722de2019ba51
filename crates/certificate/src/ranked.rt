// A dossier with the rank kind that its rank rows are judged by.
ghost use Rattle.std.specs.Prelude.{◌≡◌};

use crate::kind::RankKind;
use crate::view::View;
use sources::source::Source;

#[derive(Drop)]
pub(crate) struct Ranked<'a, S: Source, K: RankKind> {
    pub(crate) view: View<'a, S>,
    pub(crate) kind: &'a K,
    ghost ranks: { view.head.rank_numbers ≡ K.kind.numbers },
}
