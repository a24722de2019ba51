// The lines that a head calls for, as groups of frames.
ghost use Rattle.std.specs.Prelude.{◌≡◌, ◌+◌, ◌*◌, ◌^◌, ◌<◌, ◌≤◌, length, pos};
ghost use Rattle.layout.specs.Cells as fields;
ghost use Rattle.layout.specs.Layout as due;
ghost use Rattle.layout.specs.Heads.{counts_of};

use layout::field::{Digits, Field, Range, Test};
use layout::form::Form;
use layout::frame::{Frame, Group};
use layout::head::Head;

const ANY_NUMBER: Range = Range::Between {
    low: -0x8000,
    high: 0x7fff,
};

const ONLY_ZERO: Range = Range::Between { low: 0, high: 0 };

const HIGHEST: i32 = 1_048_575;

// What stands in the place of a field that a line does not have.
pub(crate) const UNUSED: Field = Field {
    digits: Digits::Two,
    test: Test::Fixed { range: ONLY_ZERO },
};

fn field(digits: Digits, low: i32, high: i32) -> Field
    ensures { result ≡ record { digits = digits; test = Test.Fixed (Range.Between low high) } }
{
    Field {
        digits,
        test: Test::Fixed {
            range: Range::Between { low, high },
        },
    }
}

// A two-digit number from `low` to `high`.
fn short(low: u16, high: u16) -> Field
    requires { (low ≤ 255) × (high ≤ 255) }
    ensures { result ≡ due.short low high }
{
    field(Digits::Two, low as i32, high as i32)
}

// The number of one of `n` things.
fn one_of(n: u16) -> Field
    requires { n ≤ 255 }
    ensures { result ≡ due.one_of n }
{
    field(Digits::Two, 0, n as i32 - 1)
}

// A two-digit number below the line's field at `index`.
fn below(index: usize) -> Field
    ensures { result ≡ record { digits = Digits.Two; test = Test.BelowField index } }
{
    Field {
        digits: Digits::Two,
        test: Test::BelowField { index },
    }
}

// The fields of the head line: nine counts, start place and start state, form, count of rank numbers.
pub(crate) fn head_fields() -> [Field; 13]
    ensures { result ≡ due.head_fields }
{
    [
        short(1, 6),
        short(1, 8),
        short(1, 16),
        short(0, 8),
        short(1, 4),
        short(1, 12),
        short(0, 4),
        short(0, 4),
        short(0, 4),
        below(1),
        below(4),
        short(1, 2),
        short(1, 2),
    ]
}

fn uniform(kind: u8, rest: Field, count: u16) -> Frame
    ensures { result ≡ due.uniform kind rest count }
{
    Frame {
        kind,
        lead: [UNUSED; 4],
        leads: 0,
        rest,
        count,
    }
}

fn led(kind: u8, first: Field, rest: Field, count: u16) -> Frame
    ensures { result ≡ due.led kind first rest count }
{
    Frame {
        kind,
        lead: [first, UNUSED, UNUSED, UNUSED],
        leads: 1,
        rest,
        count,
    }
}

fn number() -> Field
    ensures { result ≡ due.number }
{
    Field {
        digits: Digits::Four,
        test: Test::Fixed { range: ANY_NUMBER },
    }
}

// From here on the head itself is passed. As methods of a struct that holds it, each clause would name a field more. How many rows a point
// has, and how many lines show what a move concludes, are sums of two of its fields, here in 16 bits and in `certificate` in the
// machine's word: a function for each would cast, and its name be no plainer than the sum.
fn row(head: &Head, kind: u8) -> Frame
    ensures { result ≡ due.row (counts_of head.now) kind }
{
    uniform(kind, number(), head.variables + 1)
}

// From, to, then an update row for each variable.
fn step(head: &Head) -> Frame
    ensures { result ≡ due.step (counts_of head.now) }
{
    let place = one_of(head.places);
    Frame {
        kind: 0x30,
        lead: [place, place, UNUSED, UNUSED],
        leads: 2,
        rest: number(),
        count: head.variables * (head.variables + 1),
    }
}

// Type, place and row: a row with place 0, or a place with a row of zeros.
fn proposition(head: &Head) -> Frame
    ensures { result ≡ due.proposition (counts_of head.now) }
{
    let place = Range::Between {
        low: 0,
        high: head.places as i32 - 1,
    };
    Frame {
        kind: 0x40,
        lead: [
            short(0, 1),
            Field {
                digits: Digits::Two,
                test: Test::ByFirst {
                    zero: ONLY_ZERO,
                    other: place,
                },
            },
            UNUSED,
            UNUSED,
        ],
        leads: 2,
        rest: Field {
            digits: Digits::Four,
            test: Test::ByFirst {
                zero: ANY_NUMBER,
                other: ONLY_ZERO,
            },
        },
        count: head.variables + 1,
    }
}

fn state() -> Frame
    ensures { result ≡ due.state }
{
    led(0x50, short(0, 1), UNUSED, 0)
}

// The highest mask over `n` propositions.
fn masks(n: u16) -> i32
    requires { n ≤ 8 }
    ensures { result ≡ due.masks n }
{
    (1 << n) - 1
}

// From, to, must mask and must-not mask.
fn edge(head: &Head) -> Frame
    ensures { result ≡ due.edge (counts_of head.now) }
{
    let state = one_of(head.states);
    let high = masks(head.propositions);
    Frame {
        kind: 0x51,
        lead: [
            state,
            state,
            field(Digits::Two, 0, high),
            Field {
                digits: Digits::Two,
                test: Test::ApartField { high, index: 2 },
            },
        ],
        leads: 4,
        rest: UNUSED,
        count: 0,
    }
}

// A divisor and a multiplier for each hypothesis.
fn line(kind: u8, hypotheses: u16) -> Frame
    ensures { result ≡ due.line kind hypotheses }
{
    led(
        kind,
        field(Digits::Eight, 1, HIGHEST),
        field(Digits::Eight, 0, HIGHEST),
        hypotheses,
    )
}

fn mode(head: &Head, kind: u8) -> Frame
    ensures { result ≡ due.mode (counts_of head.now) kind }
{
    led(kind, short(0, head.rank_numbers), UNUSED, 0)
}

// Mode, step and edge.
fn choice(head: &Head) -> Frame
    ensures { result ≡ due.choice (counts_of head.now) }
{
    Frame {
        kind: 0x81,
        lead: [
            short(0, head.rank_numbers),
            one_of(head.steps),
            one_of(head.edges),
            UNUSED,
        ],
        leads: 3,
        rest: UNUSED,
        count: 0,
    }
}

fn repeated(times: u16, frame: Frame) -> Group
    ensures { result ≡ due.repeated times frame }
{
    Group {
        times,
        first: frame,
        firsts: 1,
        second: frame,
        seconds: 0,
    }
}

fn steps(head: &Head) -> Group
    ensures { result ≡ due.steps_group (counts_of head.now) }
{
    Group {
        times: head.steps,
        first: step(head),
        firsts: 1,
        second: row(head, 0x31),
        seconds: head.guards,
    }
}

fn points(head: &Head) -> Group
    ensures { result ≡ due.points_group (counts_of head.now) }
{
    Group {
        times: head.places * head.states,
        first: row(head, 0x60),
        firsts: head.region_rows,
        second: row(head, 0x61),
        seconds: head.rank_numbers,
    }
}

fn moves(head: &Head) -> Group
    ensures { result ≡ due.moves_group (counts_of head.now) }
{
    let points = head.region_rows + head.rank_numbers;
    Group {
        times: head.steps * head.edges,
        first: mode(head, 0x71),
        firsts: 1,
        second: line(0x72, points + head.guards + head.propositions),
        seconds: head.region_rows + 2 * head.rank_numbers,
    }
}

fn choices(head: &Head) -> Group
    ensures { result ≡ due.choices_group (counts_of head.now) }
{
    Group {
        times: head.places * head.states,
        first: choice(head),
        firsts: 1,
        second: line(0x82, head.region_rows + head.rank_numbers),
        seconds: head.guards + head.propositions + (head.region_rows + 2 * head.rank_numbers),
    }
}

// What stands before the proof lines of the moves or points: the start lines, or the shown values.
fn start(head: &Head) -> Group
    ensures { result ≡ due.start_group (counts_of head.now) }
{
    if head.form == Form::EveryRun {
        repeated(
            head.region_rows + head.rank_numbers,
            line(0x70, head.start_rows),
        )
    } else {
        let value = field(Digits::Value, i32::MIN, i32::MAX);
        repeated(1, uniform(0x80, value, head.variables))
    }
}

// Every line after the head, in order.
pub(crate) fn groups(head: &Head) -> [Group; 8]
    ensures { result ≡ due.groups (counts_of head.now) }
{
    let proofs = if head.form == Form::EveryRun {
        moves(head)
    } else {
        choices(head)
    };
    [
        repeated(head.start_rows, row(head, 0x20)),
        steps(head),
        repeated(head.propositions, proposition(head)),
        repeated(head.states, state()),
        repeated(head.edges, edge(head)),
        points(head),
        start(head),
        proofs,
    ]
}

// The fields at the front of a frame's line.
pub(crate) fn leading(frame: &Frame) -> &[Field]
    ensures value { result.now ≡ due.leading frame.now }
    ensures few { length result.now ≤ 4 }
{
    let count = frame.lead.len().min(frame.leads as usize);
    &frame.lead[0..count]
}

// How many fields a frame has.
fn width(frame: &Frame) -> usize
    ensures value { result ≡ fields.width frame.now }
    ensures bound { result < 2 ^ 17 }
{
    leading(frame).len() + frame.count as usize
}

// How many cells a group's lines have.
fn group_cells(group: &Group) -> usize
    ensures value { result ≡ fields.group_cells group.now }
    ensures bound { result < 2 ^ 50 }
{
    let once = group.firsts as usize * width(&group.first)
        + group.seconds as usize * width(&group.second);
    group.times as usize * once
}

// How many cells a head calls for.
pub(crate) fn cells_due(head: &Head) -> usize
    ensures { result ≡ fields.cells_due (counts_of head.now) }
{
    groups(head)
        .iter()
        .fold(13, |sum, group| sum + group_cells(group))
}
