ghost use Rattle.table.specs.Kept.{ways_of};
ghost use Rattle.definitions.specs.declared.operand.Operand.TheVariants.{Never, Always};
ghost use Rattle.definitions.specs.Writing.{Wrote};
ghost use Rattle.working.specs.Records.{left_in, ways_in};
ghost use Rattle.working.specs.Translation.{Translated};
ghost use Rattle.naive.specs.Naive.{meeting, joining, naively};

use definitions::draft::{Draft, LimitReached};
use definitions::operand::{Operand, Operator};
use rack::part::Literal;
use rack::refusal::Refusal;
use rack::way::WayRecord;
use working::record::WorkingRecord;
use working::rule::{Writer, translate_by};

/// The meet of the literals in the places of a way, from the left, beginning with always.
fn meet_places(left: &[Option<Literal>], draft: &mut Draft<'_>) -> Result<Operand, LimitReached>
    ensures { Wrote draft.old draft.new result (meeting draft.old.limit Always (left_in left.now)) }
{
    let mut sofar = Operand::Always;
    for place in left {
        if let Some(literal) = place {
            sofar = draft.combine(Operator::Meet, sofar, Operand::from(*literal))?;
        }
    }
    Ok(sofar)
}

/// The join of the meets of the ways, from the left, beginning with never.
fn join_ways(list: &[WorkingRecord], draft: &mut Draft<'_>) -> Result<Operand, LimitReached>
    ensures { Wrote draft.old draft.new result (joining draft.old.limit Never (ways_in list.now)) }
{
    let mut sofar = Operand::Never;
    for record in list {
        let met = meet_places(record.places(), draft)?;
        sofar = draft.combine(Operator::Join, sofar, met)?;
    }
    Ok(sofar)
}

/// The ways as they stand: the join of their meets.
#[derive(Clone, Copy)]
struct Plain;

impl Writer for Plain {
    ghost rule = { naively };

    fn write(
        ways: &mut [WorkingRecord],
        _room: &mut [WorkingRecord],
        draft: &mut Draft<'_>,
    ) -> Result<Operand, LimitReached> {
        join_ways(ways, draft)
    }
}

/// Writes the kept ways as they stand behind the definitions of the draft, and answers the operand and the number of definitions added.
/// Refuses where the working records are short (13), or where a new definition is due and the limit is reached (10).
// Kept: a call of its own, since a writer, whose `write` asks for room, is private to its crate.
pub fn naive(
    ways: &[WayRecord],
    work: &mut [WorkingRecord],
    draft: &mut Draft<'_>,
) -> Result<(Operand, usize), Refusal>
    ensures { Translated naively (ways_of ways.now) work.old work.new draft.old draft.new result }
{
    translate_by::<Plain>(ways, work, draft)
}
