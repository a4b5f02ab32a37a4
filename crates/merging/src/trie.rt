ghost use Rattle.std.specs.Prelude.{◌≡◌, ◌+◌, ◌<◌, ◌≤◌, IsTrue, length};
ghost use Rattle.table.specs.Kept.{ways_of};
ghost use Rattle.definitions.specs.Writing.{Wrote};
ghost use Rattle.working.specs.Records.{left_in, ways_in, size};
ghost use Rattle.working.specs.Translation.{Translated};
ghost use Rattle.merging.specs.Merging.{merging};
ghost use Rattle.merging.specs.Trie.{is_mark, branch_of, ended, reaching, entering, entering_all, merge_at};

use definitions::draft::{Draft, LimitReached};
use definitions::operand::{Operand, Operator};
use rack::find::find_first;
use rack::part::Literal;
use rack::refusal::Refusal;
use rack::way::WayRecord;
use working::record::{Node, WorkingRecord};
use working::rule::{Writer, translate_by};

/// The literal, where the mark is a branch of the node.
fn branch_of(mark: &WorkingRecord, node: Node) -> Option<Literal>
    ensures { result ≡ branch_of node.0 mark.now }
{
    match mark {
        WorkingRecord::Branch { parent, literal } if *parent == node => Some(*literal),
        _ => None,
    }
}

/// A trie of ways: its branches and ends are the first `count` of the records that it is lent.
// Kept: records with a count, and a node by the number of a record, since the libraries use no heap.
#[derive(Drop)]
struct Trie<'a> {
    records: &'a mut [WorkingRecord],
    count: usize,
    ghost within: { count ≤ length records.now },
}

impl Trie<'_> {
    ghost use Rattle.merging.specs.Marks.{marks, spare};

    /// The branches and ends.
    fn marks(&self) -> &[WorkingRecord]
        ensures { result.now ≡ marks self.now }
    {
        &self.records[..self.count]
    }

    /// The node that a branch or an end leads to; it comes behind the others where it is not among them.
    fn reach(&mut self, mark: WorkingRecord) -> Node
        requires mark { IsTrue (is_mark mark) }
        requires room { 0 < spare self.old }
        ensures room { spare self.old ≤ spare self.new + 1 }
        ensures node { result.0 ≡ (reaching mark (marks self.old)).node }
        ensures marks { marks self.new ≡ (reaching mark (marks self.old)).records }
    {
        if let Some(place) = find_first(self.marks(), &mark) {
            return Node(place + 1);
        }
        self.records[self.count] = mark;
        self.count += 1;
        Node(self.count)
    }

    /// Enters a way, by its places: its literals from the root on, and its end. A place that holds none is passed over.
    fn enter(&mut self, left: &[Option<Literal>])
        requires { length (left_in left.now) + 1 ≤ spare self.old }
        ensures room { spare self.old ≤ spare self.new + length (left_in left.now) + 1 }
        ensures value { marks self.new ≡ entering (left_in left.now) 0 (marks self.old) }
    {
        let mut node = Node::ROOT;
        for place in left {
            if let Some(literal) = place {
                node = self.reach(WorkingRecord::Branch {
                    parent: node,
                    literal: *literal,
                });
            }
        }
        self.reach(WorkingRecord::End { node });
    }

    /// Enters one way after another.
    fn fill(&mut self, ways: &[WorkingRecord])
        requires { size (ways_in ways.now) ≤ spare self.old }
        ensures { marks self.new ≡ entering_all (ways_in ways.now) (marks self.old) }
    {
        for way in ways {
            self.enter(way.places());
        }
    }

    /// Whether a way ends at the node.
    fn is_ended(&self, node: Node) -> bool
        ensures { result ≡ ended (marks self.now) node.0 }
    {
        find_first(self.marks(), &WorkingRecord::End { node }).is_some()
    }

    /// What is below the node, so many literals deep: each of its branches in turn, and of each what is below it first.
    fn merge(
        &self,
        node: Node,
        height: usize,
        draft: &mut Draft<'_>,
    ) -> Result<Operand, LimitReached>
        ensures { Wrote draft.old draft.new result (merge_at draft.old.limit height (marks self.now) node.0) }
    {
        if self.is_ended(node) {
            return Ok(Operand::Always);
        }
        if height == 0 {
            return Ok(Operand::Never);
        }
        let mut sofar = Operand::Never;
        for (place, mark) in self.marks().iter().enumerate() {
            if let Some(literal) = branch_of(mark, node) {
                let below = self.merge(Node(place + 1), height - 1, draft)?;
                let met = draft.combine(Operator::Meet, Operand::from(literal), below)?;
                sofar = draft.combine(Operator::Join, sofar, met)?;
            }
        }
        Ok(sofar)
    }
}

/// Merging: ways with a common beginning are written together, by a trie of the ways in the room behind them.
#[derive(Clone, Copy)]
struct ByBeginning;

impl Writer for ByBeginning {
    ghost rule = { merging };

    fn write(
        ways: &mut [WorkingRecord],
        room: &mut [WorkingRecord],
        draft: &mut Draft<'_>,
    ) -> Result<Operand, LimitReached> {
        // The room has a record for each literal of the ways, so no way is longer.
        let height = room.len();
        let mut trie = Trie {
            records: room,
            count: 0,
        };
        trie.fill(ways);
        trie.merge(Node::ROOT, height, draft)
    }
}

/// Writes the kept ways by their common beginnings behind the definitions of the draft, and answers the operand and the number of
/// definitions added. Refuses where the working records are short (13), or where a new definition is due and the limit is reached (10).
// Kept: a call of its own, since a writer, whose `write` asks for room, is private to its crate.
pub fn node_merging(
    ways: &[WayRecord],
    work: &mut [WorkingRecord],
    draft: &mut Draft<'_>,
) -> Result<(Operand, usize), Refusal>
    ensures { Translated merging (ways_of ways.now) work.old work.new draft.old draft.new result }
{
    translate_by::<ByBeginning>(ways, work, draft)
}
