ghost use Rattle.table.specs.Kept.{ways_of};
ghost use Rattle.working.specs.Translation.{Translated};
ghost use Rattle.methods.specs.Methods.{rule_of, RolledBack, Settled};

use decomposition::split::decomposition;
use definitions::draft::Draft;
use definitions::operand::Operand;
use merging::trie::node_merging;
use naive::plain::naive;
use rack::refusal::Refusal;
use rack::way::WayRecord;
use table::table::Table;
use working::record::WorkingRecord;

/// How ways become definitions.
#[derive(Clone, Copy, PartialEq, Eq)]
pub enum Method {
    /// The join of the ways, each the meet of its literals.
    Naive,
    /// By the part that comes first: the ways with it working, those with it out, and the rest.
    Decomposition,
    /// By the beginnings that the ways share.
    NodeMerging,
}

/// Puts the count of a draft back at its end, unless the translation was kept: then there is none to put back.
struct Rollback<'d, 'a> {
    draft: &'d mut Draft<'a>,
    back: Option<usize>,
}

impl Drop for Rollback<'_, '_> {
    fn drop(self)
        ensures { RolledBack self.entry.back self.entry.draft.now self.exit.0.now }
    {
        if let Some(count) = self.back {
            self.draft.count = count;
        }
        let Rollback { draft: _, back: _ } = self;
    }
}

/// The answer of the chosen method.
// Kept: which method to use is read from a text, so that a case of an enum picks the call; a writer has no value that could be handed on.
fn by_method(
    ways: &[WayRecord],
    method: Method,
    work: &mut [WorkingRecord],
    draft: &mut Draft<'_>,
) -> Result<(Operand, usize), Refusal>
    ensures { Translated (rule_of method) (ways_of ways.now) work.old work.new draft.old draft.new result }
{
    match method {
        Method::Naive => naive(ways, work, draft),
        Method::Decomposition => decomposition(ways, work, draft),
        Method::NodeMerging => node_merging(ways, work, draft),
    }
}

/// Writes the kept ways of a table behind the definitions of the draft by the chosen method, and answers the operand and the number of
/// definitions added. Refuses where the working records are short (13), then where a new definition is due and the limit is reached
/// (10); the count is then as before.
pub fn translate(
    table: &Table<'_>,
    method: Method,
    work: &mut [WorkingRecord],
    draft: &mut Draft<'_>,
) -> Result<(Operand, usize), Refusal>
    ensures { Settled method (ways_of table.now.ways.now) work.old work.new draft.old draft.new result }
{
    let count = draft.count;
    let mut guard = Rollback {
        draft,
        back: Some(count),
    };
    let answer = by_method(table.ways(), method, work, guard.draft)?;
    guard.back = None;
    Ok(answer)
}
