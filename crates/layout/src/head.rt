// The head line's numbers, in their order there. The ranges stand in the type, so that no sum or product of a few of them can overflow.
ghost use Rattle.std.specs.Prelude.{◌<◌, ◌≤◌};

use crate::form::Form;

#[derive(Clone, Copy)]
pub struct Head {
    pub variables: u16,
    pub places: u16,
    pub steps: u16,
    pub propositions: u16,
    pub states: u16,
    pub edges: u16,
    pub start_rows: u16,
    pub guards: u16,
    pub region_rows: u16,
    pub start_place: u16,
    pub start_state: u16,
    pub form: Form,
    pub rank_numbers: u16,
    ghost program: { (variables ≤ 6) × (places ≤ 8) × (steps ≤ 16) },
    ghost program_some: { (1 ≤ variables) × (1 ≤ places) × (1 ≤ steps) },
    ghost watch: { (propositions ≤ 8) × (states ≤ 4) × (edges ≤ 12) },
    ghost watch_some: { (1 ≤ states) × (1 ≤ edges) },
    ghost rows: { (start_rows ≤ 4) × (guards ≤ 4) × (region_rows ≤ 4) },
    ghost start: { (start_place < places) × (start_state < states) },
    ghost certificate: { rank_numbers ≤ 2 },
    ghost certificate_some: { 1 ≤ rank_numbers },
}
