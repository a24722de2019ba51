// Fall rows, over rank rows that stand in tables.
ghost use Rattle.std.specs.Prelude.{◌≡◌, ℕ, ◌+◌, ◌<◌, ◌≤◌, ◌++◌, length};
ghost use Rattle.dossier.specs.Kinds.{fall_row};
ghost use Rattle.dossier.specs.Rows as rows;
ghost use Rattle.dossier.specs.Rows.{each, zero_row};
ghost use Rattle.certificate.specs.Arrays.{row_of, rows_of, held};
ghost use Rattle.certificate.specs.Falls.{rows_from, There, Ready};

use crate::kind::RankKind;
use crate::rows::{Row, difference, zero_row};
use crate::table::Table;
use dossier::fall::Fall;

// The rank rows of a point: those of a table from an index on. An index and no slice from it on, since the definitions of what
// fall rows compare speak of a place.
#[derive(Clone, Copy)]
pub(crate) struct Ranks<'a> {
    pub(crate) rows: &'a [Row],
    pub(crate) at: usize,
}

// How far one number of a rank falls, less a number.
fn fallen(old: &Ranks<'_>, new: &Ranks<'_>, number: usize, less: u8) -> Row
    requires old { There (rows_of old.now.rows.now) old.now.at number }
    requires new { There (rows_of new.now.rows.now) new.now.at number }
    ensures { row_of result ≡ rows.less (rows.difference (rows_from (rows_of old.now.rows.now) old.now.at number) (rows_from (rows_of new.now.rows.now) new.now.at number)) less }
{
    difference(&old.rows[old.at + number], &new.rows[new.at + number], less)
}

fn fall_row(fall: Fall, old: &Ranks<'_>, new: &Ranks<'_>) -> Row
    requires { Ready fall (rows_of old.now.rows.now) old.now.at (rows_of new.now.rows.now) new.now.at }
    ensures { row_of result ≡ fall_row fall (rows_from (rows_of old.now.rows.now) old.now.at) (rows_from (rows_of new.now.rows.now) new.now.at) }
{
    match fall {
        Fall::None => zero_row(),
        Fall::Keeps { number } => fallen(old, new, number, 0),
        Fall::Drops { number } => fallen(old, new, number, 1),
    }
}

// Pushes the fall rows of a mode. The new rank rows stand in the same table, from an index on.
pub(crate) fn push_falls<K: RankKind>(
    kind: &K,
    mode: usize,
    old: &Ranks<'_>,
    table: &mut Table,
    new_at: usize,
)
    requires room { length (held table.old) + K.kind.numbers ≤ 20 }
    requires there { (k : ℕ) → k < K.kind.numbers → There (rows_of old.now.rows.now) old.now.at k × There (held table.old) new_at k }
    ensures { held table.new ≡ held table.old ++ each K.kind.numbers (λ i. fall_row (K.kind.fall mode i) (rows_from (rows_of old.now.rows.now) old.now.at) (rows_from (held table.old) new_at)) }
{
    for index in 0..kind.numbers() {
        let new = Ranks {
            rows: table.as_slice(),
            at: new_at,
        };
        let row = fall_row(kind.fall(mode, index), old, &new);
        table.push(row);
    }
}

// Pushes zero rows.
pub(crate) fn push_zeros(count: usize, table: &mut Table)
    requires { length (held table.old) + count ≤ 20 }
    ensures { held table.new ≡ held table.old ++ each count (λ _. zero_row) }
{
    for _ in 0..count {
        table.push(zero_row());
    }
}
