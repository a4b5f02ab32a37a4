ghost use Rattle.std.specs.Prelude.{◌≡◌, length};

use crate::operand::Definition;
use rack::refusal::Refusal;

/// Definitions under writing, in slots that are lent: the first `count` slots hold one each, and what is written goes behind them while
/// the limit allows it. A count or a limit above 4,096 counts as 4,096.
// Kept: slots and a count, since the libraries use no heap.
#[derive(Drop)]
pub struct Draft<'a> {
    pub slots: &'a mut [Definition; 4096],
    pub count: usize,
    pub limit: usize,
    ghost room: { length slots.now ≡ 4096 },
}

impl<'a> Draft<'a> {
    /// A draft of the first `count` definitions in the slots.
    pub fn new(slots: &'a mut [Definition; 4096], count: usize, limit: usize) -> Draft<'a>
        ensures slots { result.slots.now ≡ slots.old }
        ensures lender { result.slots.ghost_name ≡ slots.entry.ghost_name }
        ensures count { result.count ≡ count }
        ensures limit { result.limit ≡ limit }
    {
        Draft {
            slots,
            count,
            limit,
        }
    }
}

/// A new definition is due and the limit is reached.
#[derive(Clone, Copy, PartialEq, Eq)]
pub struct LimitReached;

impl From<LimitReached> for Refusal {
    ghost use Rattle.std.specs.Prelude.{◌≡◌};
    ghost use Rattle.rack.specs.declared.refusal.Refusal.TheVariants as refusal;

    ghost from_gives = { λ _ r. r ≡ refusal.LimitReached };

    fn from(_full: LimitReached) -> Refusal {
        Refusal::LimitReached
    }
}
