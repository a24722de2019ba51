// A move as a dossier writes it: its step and edge, its mode, and what it leads from and to.

#[derive(Clone, Copy)]
pub struct Move {
    pub mode: usize,
    pub step: usize,
    pub edge: usize,
    pub from_place: usize,
    pub from_state: usize,
    pub to_place: usize,
    pub to_state: usize,
}
