ghost use Rattle.std.specs.Prelude.{◌≤◌, length};
ghost use Rattle.table.specs.Kept.{ways_of};
ghost use Rattle.definitions.specs.Writing.{Wrote};
ghost use Rattle.working.specs.Records.{ways_in, size};
ghost use Rattle.working.specs.Translation.{Rule, Translated};

use crate::gather::gather;
use crate::record::WorkingRecord;
use definitions::draft::{Draft, LimitReached};
use definitions::operand::Operand;
use rack::refusal::Refusal;
use rack::way::WayRecord;

/// One of the methods by which ways become definitions.
pub trait Writer {
    /// What it writes of a list of ways, within a limit.
    ghost rule: { Rule };

    /// Writes the ways behind the definitions of the draft, and answers their operand. The ways are spent on it, and so is the room
    /// behind them.
    fn write(
        ways: &mut [WorkingRecord],
        room: &mut [WorkingRecord],
        draft: &mut Draft<'_>,
    ) -> Result<Operand, LimitReached>
        requires { size (ways_in ways.old) ≤ length room.old }
        ensures { Wrote draft.old draft.new result (rule draft.old.limit (ways_in ways.old)) };
}

/// Translates the ways of a table by a method: writes the kept ones behind the definitions of the draft, and answers the operand and the
/// number of definitions added. Refuses where the working records are short (13), and then writes nothing, and where a new definition is
/// due and the limit is reached (10).
// Kept: ways, records and draft go together, here and in the methods, since a struct of three borrows would be made only to be taken apart.
pub fn translate_by<W: Writer>(
    ways: &[WayRecord],
    work: &mut [WorkingRecord],
    draft: &mut Draft<'_>,
) -> Result<(Operand, usize), Refusal>
    ensures { Translated W.rule (ways_of ways.now) work.old work.new draft.old draft.new result }
{
    let before = draft.count;
    let Some(n) = gather(ways, work) else {
        return Err(Refusal::MemoryShort);
    };
    let (list, room) = work.split_at_mut(n);
    let operand = W::write(list, room, draft)?;
    Ok((operand, draft.count - before))
}
