// Goes through the lines of a sheet, field by field, up to the first fault. The fields come from a text or a list of cells.
ghost use Rattle.std.specs.Prelude.{◌≡◌, ◌≤◌, [], length, take, replicate, pos, slice_index_or, OnOk};
ghost use Rattle.layout.specs.Heads.{counts_of};
ghost use Rattle.layout.specs.Layout.{InRanges, counts, count_of, group_pass, group_lines, lines_due, head_fields, unused};
ghost use Rattle.layout.specs.Text.{head_kind};
ghost use Rattle.layout.specs.Walk as walking;
ghost use Rattle.layout.specs.declared.fault.Place;
ghost use Rattle.sheet.specs.Line.{IsLineOf};
ghost use Rattle.sheet.specs.Store.{put, SameCells, Found, Valued, Stored, Led, Headed};

use crate::due::{UNUSED, groups, head_fields, leading};
use crate::store::Store;
use crate::tests_of::range_of;
use layout::field::{Digits, Field, Range};
use layout::frame::{Frame, Group};
use layout::head::Head;
use layout::head_cells::HeadCells;

// A line: its kind, its leading fields, then `count` fields like `rest`.
#[derive(Clone, Copy)]
pub(crate) struct Line<'a> {
    kind: u8,
    lead: &'a [Field],
    rest: &'a Field,
    count: u16,
}

impl<'a> From<&'a Frame> for Line<'a> {
    ghost from_gives = { λ frame line. IsLineOf line frame.now };

    fn from(frame: &'a Frame) -> Line<'a> {
        Line {
            kind: frame.kind,
            lead: leading(frame),
            rest: &frame.rest,
            count: frame.count,
        }
    }
}

// What supplies the fields; how lines are made of them is written once, for all that do. The store is passed beside it: as
// one struct with the fields, the proof that the store's cells are those lent did not close, two structs deep.
//
// Each method says that the supply stays and where it stands afterwards, and the last two that the cells stay those lent: what a
// call leaves is no fact of one value. Digits and range of a field go side by side: they come from two places, the field and what
// stood before it.
pub(crate) trait Fields {
    type Fault;

    // what stands at each place, and the place where the next field is taken
    ghost supply: { Self → walking.Supply Self.Fault };

    ghost lawful: { (s : Self) → walking.Lawful (supply s) };

    ghost place: { Self → Place.Place };

    fn kind(&mut self, due: u8) -> Result<(), Self::Fault>
        ensures same { supply self.new ≡ supply self.old }
        ensures found { Found result (place self.new) ((supply self.old).kind due (place self.old)) };

    fn field(&mut self, digits: Digits, range: Range) -> Result<i32, Self::Fault>
        ensures same { supply self.new ≡ supply self.old }
        ensures found { Valued result (place self.new) ((supply self.old).field digits range (place self.old)) };

    fn end(&mut self) -> Result<(), Self::Fault>
        ensures same { supply self.new ≡ supply self.old }
        ensures found { Found result (place self.new) ((supply self.old).end (place self.old)) };

    // `count` fields of one sort.
    fn run(
        &mut self,
        digits: Digits,
        range: Range,
        count: u16,
        store: &mut Store,
    ) -> Result<(), Self::Fault>
        ensures same { supply self.new ≡ supply self.old }
        ensures walked { Stored result store.new (place self.new) (walking.run (supply self.old) put digits range count store.old (place self.old)) }
    {
        for _ in 0..count {
            let value = self.field(digits, range)?;
            store.put(value);
        }
        Ok(())
    }

    // The leading fields of a line; their values go to the front of `values` too. That is a slice, since the head line has more of
    // them than the others: a vector of fixed room would be of another type for each. By the index, since a field is tested by the
    // values before it.
    final fn leads(
        &mut self,
        lead: &[Field],
        values: &mut [i32],
        store: &mut Store,
    ) -> Result<(), Self::Fault>
        requires { length lead.now ≤ length values.old }
        ensures same { supply self.new ≡ supply self.old }
        ensures walked { Led result (take (length lead.now) values.new) store.new (place self.new) (walking.leads (supply self.old) put [] lead.now store.old (place self.old)) }
    {
        for (i, field) in lead.iter().enumerate() {
            let range = range_of(field.test, &values[..i]);
            let value = self.field(field.digits, range)?;
            values[i] = value;
            store.put(value);
        }
        Ok(())
    }

    // A line up to its end; its leading values go to the front of `values` too.
    final fn line(
        &mut self,
        line: &Line,
        values: &mut [i32],
        store: &mut Store,
    ) -> Result<(), Self::Fault>
        requires { length line.now.lead.now ≤ length values.old }
        ensures same { supply self.new ≡ supply self.old }
        ensures walked { Led result (take (length line.now.lead.now) values.new) store.new (place self.new) (walking.line (supply self.old) put line.now.kind line.now.lead.now line.now.rest.now line.now.count store.old (place self.old)) }
    {
        self.kind(line.kind)?;
        self.leads(line.lead, values, store)?;
        let range = range_of(line.rest.test, &values[..line.lead.len()]);
        self.run(line.rest.digits, range, line.count, store)?;
        self.end()
    }

    final fn frame(&mut self, frame: &Frame, store: &mut Store) -> Result<(), Self::Fault>
        ensures same { supply self.new ≡ supply self.old }
        ensures walked { Stored result store.new (place self.new) (walking.frame (supply self.old) put frame.now store.old (place self.old)) }
    {
        let mut values = [0; 4];
        self.line(&Line::from(frame), &mut values, store)
    }

    // `times` lines of one sort.
    final fn frames(
        &mut self,
        frame: &Frame,
        times: u16,
        store: &mut Store,
    ) -> Result<(), Self::Fault>
        ensures same { supply self.new ≡ supply self.old }
        ensures walked { Stored result store.new (place self.new) (walking.frames (supply self.old) put (replicate times frame.now) store.old (place self.old)) }
    {
        for _ in 0..times {
            self.frame(frame, store)?;
        }
        Ok(())
    }

    // One pass through a group.
    final fn pass(&mut self, group: &Group, store: &mut Store) -> Result<(), Self::Fault>
        ensures same { supply self.new ≡ supply self.old }
        ensures walked { Stored result store.new (place self.new) (walking.frames (supply self.old) put (group_pass group.now) store.old (place self.old)) }
    {
        self.frames(&group.first, group.firsts, store)?;
        self.frames(&group.second, group.seconds, store)
    }

    // A group's lines, as often as it is repeated.
    final fn group(&mut self, group: &Group, store: &mut Store) -> Result<(), Self::Fault>
        ensures same { supply self.new ≡ supply self.old }
        ensures walked { Stored result store.new (place self.new) (walking.frames (supply self.old) put (group_lines group.now group.now.times) store.old (place self.old)) }
    {
        for _ in 0..group.times {
            self.pass(group, store)?;
        }
        Ok(())
    }

    // Every line after the head.
    final fn body(&mut self, head: &Head, store: &mut Store) -> Result<(), Self::Fault>
        ensures same { supply self.new ≡ supply self.old }
        ensures walked { Stored result store.new (place self.new) (walking.frames (supply self.old) put (lines_due (counts_of head.now)) store.old (place self.old)) }
        ensures lent { OnOk result (SameCells store.old store.new) }
    {
        for group in groups(head) {
            self.group(&group, store)?;
        }
        Ok(())
    }

    // The head line.
    final fn head(&mut self, store: &mut Store) -> Result<Head, Self::Fault>
        ensures same { supply self.new ≡ supply self.old }
        ensures walked { Headed result store.new (place self.new) (walking.line (supply self.old) put head_kind head_fields unused 0 store.old (place self.old)) }
        ensures lent { OnOk result (SameCells store.old store.new) }
    {
        let lead = head_fields();
        let line = Line {
            kind: 0x10,
            lead: &lead,
            rest: &UNUSED,
            count: 0,
        };
        let mut values = [0; 13];
        self.line(&line, &mut values, store)?;
        Ok(Head::from(HeadCells { cells: values }))
    }
}
