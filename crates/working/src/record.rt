ghost use Rattle.std.specs.Prelude.{◌≡◌};
ghost use Rattle.std.proofs.Common.{rules};
ghost use Rattle.table.specs.Kept.{holds as held};
ghost use Rattle.working.specs.Records.{left_in, way_in, lacking, first_of};

use rack::find::Exact;
use rack::part::Literal;

/// A node of the trie. The root is 0, and the branch in the record at place i leads to node i + 1.
#[derive(Clone, Copy, PartialEq, Eq)]
pub struct Node(pub usize);

impl Node {
    /// The node where every way begins.
    pub const ROOT: Node = Node(0);
}

/// A record that a caller lends to a translation. It holds a way with the literals that are left of it, a branch of the trie, or
/// the mark of a node where a way ends.
// Kept: records of one size, and nodes by their number, since the libraries use no heap.
#[derive(Clone, Copy, PartialEq, Eq)]
pub enum WorkingRecord {
    Way { left: [Option<Literal>; 24] },
    Branch { parent: Node, literal: Literal },
    End { node: Node },
}

impl WorkingRecord {
    /// A record that holds a way of no literals.
    pub const BLANK: WorkingRecord = WorkingRecord::Way { left: [None; 24] };
}

impl Exact for Node {
    ghost exact = { Prim.search rules };
}

impl Exact for WorkingRecord {
    ghost use Rattle.std.proofs.Common.{refl};
    ghost use Rattle.working.specs.Exact.{exact_by_parts};

    ghost exact = { exact_by_parts {q = ⟦<WorkingRecord as PartialEq>⟧.eq} {n = ⟦<Node as PartialEq>⟧.eq} {l = ⟦<Literal as PartialEq>⟧.eq}
        (record {
          ways = λ x y. refl;
          branches = λ p o x y. refl;
          ends = λ p o. refl;
          way_branch = λ x o y. refl;
          way_end = λ x o. refl;
          branch_way = λ p x y. refl;
          branch_end = λ p x o. refl;
          end_way = λ p y. refl;
          end_branch = λ p o y. refl;
        })
        (Prim.search rules)
        (Prim.search rules) };
}

/// The first literal that is left in the places of a way.
fn first_in(left: &[Option<Literal>]) -> Option<Literal>
    ensures { result ≡ first_of (left_in left.now) }
{
    for place in left {
        if let Some(literal) = place {
            return Some(*literal);
        }
    }
    None
}

/// Whether a literal is left in the places of a way.
fn held_in(left: &[Option<Literal>], wanted: Literal) -> bool
    ensures { result ≡ held wanted (left_in left.now) }
{
    left.contains(&Some(wanted))
}

/// Takes a literal away from the places of a way.
fn clear(left: &mut [Option<Literal>], gone: Literal)
    ensures { left_in left.new ≡ lacking gone (left_in left.old) }
{
    for place in left.iter_mut() {
        if *place == Some(gone) {
            *place = None;
        }
    }
}

impl WorkingRecord {
    /// The places of the way; a record that is no way has none.
    pub fn places(&self) -> &[Option<Literal>]
        ensures { left_in result.now ≡ way_in self.now }
    {
        match self {
            WorkingRecord::Way { left } => left,
            _ => &[],
        }
    }

    /// The first literal that is left of the way.
    pub fn first(&self) -> Option<Literal>
        ensures { result ≡ first_of (way_in self.now) }
    {
        first_in(self.places())
    }

    /// Whether the literal is left of the way.
    pub fn holds(&self, wanted: Literal) -> bool
        ensures { result ≡ held wanted (way_in self.now) }
    {
        held_in(self.places(), wanted)
    }

    /// The way without the literal.
    pub fn without(&self, gone: Literal) -> WorkingRecord
        ensures { way_in result ≡ lacking gone (way_in self.now) }
    {
        let mut record = *self;
        if let WorkingRecord::Way { left } = &mut record {
            clear(left, gone);
        }
        record
    }
}
