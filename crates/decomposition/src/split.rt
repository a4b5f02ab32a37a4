ghost use Rattle.std.specs.Prelude.{◌≡◌, ◌≤◌, length, take};
ghost use Rattle.table.specs.Kept.{literals, ways_of};
ghost use Rattle.definitions.specs.Writing.{Wrote};
ghost use Rattle.working.specs.Records.{ways_in};
ghost use Rattle.working.specs.Translation.{Translated};
ghost use Rattle.decomposition.specs.Decomposition.{under, beside, start_of, closing, decomposing};

use definitions::draft::{Draft, LimitReached};
use definitions::operand::{Operand, Operator};
use rack::part::{Literal, Part, Sign};
use rack::refusal::Refusal;
use rack::way::WayRecord;
use std::ops::ControlFlow;
use working::record::WorkingRecord;
use working::rule::{Writer, translate_by};

/// The part of the first literal of the first way; or the constant that the ways are worth at once: always where a way has no literal
/// left, and never where there is no way.
fn begins(list: &[WorkingRecord]) -> ControlFlow<Operand, Part>
    ensures { result ≡ start_of (ways_in list.now) }
{
    if list.iter().any(|record| record.first().is_none()) {
        return ControlFlow::Break(Operand::Always);
    }
    match list.first().and_then(WorkingRecord::first) {
        Some(literal) => ControlFlow::Continue(literal.part),
        None => ControlFlow::Break(Operand::Never),
    }
}

/// Moves the ways that hold the literal to the front of `room`, each without it, and the others to the front of the list. Answers how
/// many were moved there, and how many are left here.
fn divide(
    list: &mut [WorkingRecord],
    literal: Literal,
    room: &mut [WorkingRecord],
) -> (usize, usize)
    requires { literals (ways_in list.old) ≤ length room.old }
    ensures held_fit { result.0 ≤ length room.new }
    ensures held { ways_in (take result.0 room.new) ≡ under literal (ways_in list.old) }
    ensures left_fit { result.1 ≤ length list.new }
    ensures left { ways_in (take result.1 list.new) ≡ beside literal (ways_in list.old) }
{
    let mut held = 0;
    let mut left = 0;
    // Kept: the records are lent, without a heap, and a slice has no method that keeps some of its elements in place.
    for i in 0..list.len() {
        let record = list[i];
        if record.holds(literal) {
            room[held] = record.without(literal);
            held += 1;
        } else {
            list[left] = record;
            left += 1;
        }
    }
    (held, left)
}

/// Meets each literal of the part with what its ways gave, joins the two, and joins that with what the rest gave.
fn close(
    part: Part,
    working: Operand,
    out: Operand,
    rest: Operand,
    draft: &mut Draft<'_>,
) -> Result<Operand, LimitReached>
    ensures { Wrote draft.old draft.new result (closing draft.old.limit part working out rest) }
{
    let works = draft.combine(Operator::Meet, Operand::Works(part), working)?;
    let fails = draft.combine(Operator::Meet, Operand::Out(part), out)?;
    let either = draft.combine(Operator::Join, works, fails)?;
    draft.combine(Operator::Join, either, rest)
}

/// Writes the ways of `list`, which are spent on it: first those that hold the part working, then of the others those that hold it
/// out, then the rest. `room` holds the ways of one side while they are written.
fn decompose(
    list: &mut [WorkingRecord],
    room: &mut [WorkingRecord],
    draft: &mut Draft<'_>,
) -> Result<Operand, LimitReached>
    requires { literals (ways_in list.old) ≤ length room.old }
    ensures { Wrote draft.old draft.new result (decomposing draft.old.limit (ways_in list.old)) }
{
    let part = match begins(list) {
        ControlFlow::Continue(part) => part,
        ControlFlow::Break(constant) => return Ok(constant),
    };
    let works = Literal {
        part,
        sign: Sign::Works,
    };
    let fails = Literal {
        part,
        sign: Sign::Out,
    };
    let (held, left) = divide(list, works, room);
    let (ways, spare) = room.split_at_mut(held);
    let working = decompose(ways, spare, draft)?;
    let others = &mut list[..left];
    let (held, left) = divide(others, fails, room);
    let (ways, spare) = room.split_at_mut(held);
    let out = decompose(ways, spare, draft)?;
    let rest = decompose(&mut others[..left], room, draft)?;
    close(part, working, out, rest, draft)
}

/// The method that writes the ways by the part that comes first in them.
#[derive(Clone, Copy)]
struct ByPart;

impl Writer for ByPart {
    ghost rule = { decomposing };

    fn write(
        ways: &mut [WorkingRecord],
        room: &mut [WorkingRecord],
        draft: &mut Draft<'_>,
    ) -> Result<Operand, LimitReached> {
        decompose(ways, room, draft)
    }
}

/// Writes the kept ways by the part that comes first behind the definitions of the draft, and answers the operand and the number of
/// definitions added. Refuses where the working records are short (13), or where a new definition is due and the limit is reached (10).
// Kept: a call of its own, since a writer, whose `write` asks for room, is private to its crate.
pub fn decomposition(
    ways: &[WayRecord],
    work: &mut [WorkingRecord],
    draft: &mut Draft<'_>,
) -> Result<(Operand, usize), Refusal>
    ensures { Translated decomposing (ways_of ways.now) work.old work.new draft.old draft.new result }
{
    translate_by::<ByPart>(ways, work, draft)
}
