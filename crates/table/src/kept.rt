ghost use Rattle.std.specs.Prelude.{◌≡◌};
ghost use Rattle.table.specs.Kept.{holds, opposed, contradictory, same_way, among, keeps, ways_of};

use rack::find::find_first;
use rack::part::Literal;
use rack::way::WayRecord;

/// The literal of the same part with the other sign.
fn opposite(literal: &Literal) -> Literal
    ensures { result ≡ opposed literal.now }
{
    Literal {
        part: literal.part,
        sign: !literal.sign,
    }
}

/// Whether a way holds a literal.
fn is_held(way: &[Literal], literal: &Literal) -> bool
    ensures { result ≡ holds literal.now way.now }
{
    // Kept: by the finder, since the library's `contains` tests small elements in groups, which takes longer on a way.
    find_first(way, literal).is_some()
}

/// Whether two ways have the same literals in the same order.
fn is_same(way: &[Literal], other: &[Literal]) -> bool
    ensures { result ≡ same_way way.now other.now }
{
    // Kept: place by place, since the library's `==` of slices tests small elements in groups too.
    way.len() == other.len()
        && way
            .iter()
            .zip(other)
            .all(|(literal, other)| literal == other)
}

/// Whether a way holds some part both working and out.
fn is_contradictory(way: &[Literal]) -> bool
    ensures { result ≡ contradictory way.now }
{
    let mut rest = way;
    while let [literal, later @ ..] = rest {
        if is_held(later, &opposite(literal)) {
            return true;
        }
        rest = later;
    }
    false
}

/// Whether some way of `earlier` equals `way`.
fn is_among(way: &[Literal], earlier: &[WayRecord]) -> bool
    ensures { result ≡ among way.now (ways_of earlier.now) }
{
    earlier.iter().any(|record| is_same(record.literals(), way))
}

/// Whether a way is kept, where `earlier` are the ways entered before it: it is not contradictory, and equals none of them.
pub fn is_kept(way: &[Literal], earlier: &[WayRecord]) -> bool
    ensures { result ≡ keeps way.now (ways_of earlier.now) }
{
    !is_contradictory(way) && !is_among(way, earlier)
}
