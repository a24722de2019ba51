// The moves that a dossier writes down, for whoever tells a reader what stands there.
ghost use Rattle.std.specs.Prelude.{◌≡◌, ◌<◌, ◌≤◌};
ghost use Rattle.certificate.specs.Parts.{written, move_written, choice_written};

use crate::view::View;
use crate::written::Move;
use layout::form::Form;
use sources::source::Source;

impl<'a, S: Source> View<'a, S> {
    // A step and an edge in a mode, with what they lead from and to.
    fn joined(&self, mode: usize, step: usize, edge: usize) -> Move
        requires step { step ≤ 16 }
        requires edge { edge ≤ 12 }
        ensures { result ≡ written (S.cells self.now.source.now) mode step edge }
    {
        Move {
            mode,
            step,
            edge,
            from_place: self.step_from(step),
            from_state: self.edge_from(edge),
            to_place: self.step_to(step),
            to_state: self.edge_to(edge),
        }
    }
}

// A move of an every-run dossier by its number, none if there is no such move.
pub fn move_of<S: Source>(source: &S, index: usize) -> Option<Move>
    ensures { result ≡ move_written (S.cells source.now) index }
{
    let view = View::of(source);
    let Form::EveryRun = view.head.form else {
        return None;
    };
    if index >= view.moves() {
        return None;
    }
    let edges = view.head.edges as usize;
    let mode = view.move_mode(index);
    Some(view.joined(mode, index / edges, index % edges))
}

// The move that a point of a some-run dossier chooses, none if there is no such point.
pub fn choice_of<S: Source>(source: &S, point: usize) -> Option<Move>
    ensures { result ≡ choice_written (S.cells source.now) point }
{
    let view = View::of(source);
    let Form::SomeRun = view.head.form else {
        return None;
    };
    if point >= view.points() {
        return None;
    }
    let mode = view.choice_mode(point);
    let step = view.choice_step(point);
    let edge = view.choice_edge(point);
    Some(view.joined(mode, step, edge))
}
