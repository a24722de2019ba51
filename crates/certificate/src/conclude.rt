// What the lines of a move conclude.
ghost use Rattle.std.specs.Prelude.{◌≡◌, ◌+◌, ◌<◌, ◌≤◌, ◌++◌, length};
ghost use Rattle.dossier.specs.Admission as admission;
ghost use Rattle.certificate.specs.Arrays.{rows_of, held};
ghost use Rattle.certificate.specs.Falls.{Begins};

use crate::falls::{Ranks, push_falls, push_zeros};
use crate::kind::RankKind;
use crate::ranked::Ranked;
use crate::rows::Row;
use crate::table::Table;
use sources::source::Source;

impl<'a, S: Source, K: RankKind> Ranked<'a, S, K> {
    // Pushes the region rows and rank rows of a move's last point, taken at its step, and then its fall rows. The rows of its first
    // point stand at the front of `old`. Mode, step and edge are passed one by one: most of what is called takes one of them.
    pub(crate) fn push_conclusions(
        &self,
        mode: usize,
        step: usize,
        edge: usize,
        old: &[Row],
        table: &mut Table,
    )
        requires step { step < self.now.view.head.steps }
        requires edge { edge < self.now.view.head.edges }
        requires room { length (held table.old) ≤ 12 }
        requires begins { Begins (rows_of old.now) (admission.point_hypotheses (S.cells self.now.view.source.now) (admission.first_point (S.cells self.now.view.source.now) step edge)) }
        ensures { held table.new ≡ held table.old ++ admission.move_conclusions (S.cells self.now.view.source.now) K.kind mode step edge }
    {
        let regions = self.view.head.region_rows as usize;
        let new_at = table.len() + regions;
        let last = self.view.last_point(step, edge);
        self.view.push_taken(step, last, table);
        if self.view.marked_state(self.view.edge_from(edge)) {
            push_zeros(self.view.head.rank_numbers as usize, table);
        } else {
            let old = Ranks {
                rows: old,
                at: regions,
            };
            push_falls(self.kind, mode, &old, table, new_at);
        }
    }
}
