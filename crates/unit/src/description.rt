// A dossier in numbers, from its head.
use layout::head::Head;
use std::fmt;

#[derive(Clone, Copy)]
pub struct Description(pub Head);

impl fmt::Display for Description {
    fn fmt<W: fmt::Write>(&self, f: &mut fmt::Formatter<W>) -> fmt::Result {
        let Head {
            variables,
            places,
            steps,
            propositions,
            states,
            edges,
            form,
            rank_numbers,
            ..
        } = self.0;
        let number = u16::from(form);
        write!(
            f,
            "form {number} ({form}), {variables} variables, {places} places, {steps} steps, "
        )?;
        write!(
            f,
            "{propositions} propositions, {states} states, {edges} edges, rank of {rank_numbers}"
        )
    }
}
