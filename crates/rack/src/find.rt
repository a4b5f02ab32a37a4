ghost use Rattle.std.specs.Prelude.{◌≡◌, ◌↔◌, IsTrue, MatchOption};
ghost use Rattle.rack.specs.First.{FirstAt, Nowhere};

/// A record whose equality says yes exactly for the same contents.
pub trait Exact: PartialEq {
    ghost exact: { (a b : Self) → IsTrue (Self.eq a b) ↔ (a ≡ b) };
}

/// The one finder: the place of the first record equal to `wanted`, counted from 0, or none where there is none.
pub fn find_first<R: Exact>(records: &[R], wanted: &R) -> Option<usize>
    ensures { MatchOption result (Nowhere records.now wanted.now) (FirstAt records.now wanted.now) }
{
    records.iter().position(|record| record == wanted)
}
