ghost use Rattle.std.specs.Prelude.{◌≡◌, ◌≤◌, length};
ghost use Rattle.rack.specs.Way.{way_of};

use crate::part::Literal;

/// The number of a way in its table, from 1, in the order entered.
#[derive(Clone, Copy, PartialEq, Eq)]
pub struct WayNumber(pub u16);

// Kept: places and a count, since the library uses no heap: a caller lends records of one fixed size.
/// A record that a caller lends for one way: the literals in the first `count` places; the places beyond are open.
#[derive(Clone, Copy)]
pub struct WayRecord {
    pub places: [Literal; 24],
    pub count: usize,
}

impl WayRecord {
    /// A record that holds no literal.
    pub const BLANK: WayRecord = WayRecord {
        places: [Literal::BLANK; 24],
        count: 0,
    };

    /// The literals of the way. A record holds at most 24, whatever its count says.
    pub fn literals(&self) -> &[Literal]
        ensures value { result.now ≡ way_of self.now }
        ensures few { length result.now ≤ 24 }
    {
        let n = self.count.min(24);
        &self.places[0..n]
    }
}
