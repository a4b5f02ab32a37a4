ghost use Rattle.std.specs.Prelude.{◌≡◌, ◌≤◌, length, Decides};
ghost use Rattle.table.specs.Kept.{kept as kept_of, ways_of};
ghost use Rattle.working.specs.Records.{way_in};
ghost use Rattle.working.specs.Gather.{needed as need_of, Gathered};

use crate::record::WorkingRecord;
use rack::part::Literal;
use rack::way::WayRecord;
use table::kept::is_kept;

/// Whether so many working records serve the kept ways: one, two for each way and one for each of its literals.
fn serves(ways: &[WayRecord], records: usize) -> bool
    ensures { Decides result (need_of (kept_of (ways_of ways.now)) ≤ records) }
{
    if records == 0 {
        return false;
    }
    let mut spare = records - 1;
    for (i, record) in ways.iter().enumerate() {
        let way = record.literals();
        if is_kept(way, &ways[..i]) {
            let needed = 2 + way.len();
            if spare < needed {
                return false;
            }
            spare -= needed;
        }
    }
    true
}

/// The working record of a way.
fn whole(way: &[Literal]) -> WorkingRecord
    requires { length way.now ≤ 24 }
    ensures { way_in result ≡ way.now }
{
    // Kept: places are counted, since the check knows nothing of what is written through a zip of `iter_mut`.
    let mut left = [None; 24];
    for (i, literal) in way.iter().enumerate() {
        left[i] = Some(*literal);
    }
    WorkingRecord::Way { left }
}

/// Puts the kept ways, in the order entered, at the front of the working records, and answers how many they are; none, and nothing
/// is written, where the records do not serve them.
pub fn gather(ways: &[WayRecord], work: &mut [WorkingRecord]) -> Option<usize>
    ensures { Gathered (ways_of ways.now) work.old work.new result }
{
    if !serves(ways, work.len()) {
        return None;
    }
    // Kept: the ways are walked again, and their places counted, since nothing may be written before all are known to find one.
    let mut n = 0;
    for (i, record) in ways.iter().enumerate() {
        let way = record.literals();
        if is_kept(way, &ways[..i]) {
            work[n] = whole(way);
            n += 1;
        }
    }
    Some(n)
}
