// A frame is one line of a sheet; a group is a part of the sheet that is repeated.
use crate::field::Field;

// Kind, then the first `leads` fields of `lead`, then `count` fields like `rest`. The kind is the number that its two digits
// write: an enum would only be turned back into it. `lead` is an array with a count, since a group copies its frames, and a
// vector of fixed room is not copied.
#[derive(Clone, Copy)]
pub struct Frame {
    pub kind: u8,
    pub lead: [Field; 4],
    pub leads: u16,
    pub rest: Field,
    pub count: u16,
}

// `times` times over: `firsts` lines like `first`, then `seconds` lines like `second`.
#[derive(Clone, Copy)]
pub struct Group {
    pub times: u16,
    pub first: Frame,
    pub firsts: u16,
    pub second: Frame,
    pub seconds: u16,
}
