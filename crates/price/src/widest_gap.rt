//! Why the widest gap is not offered as a price.

ghost use Rattle.price.specs.WidestGap.{NoPrice, Turns};

/// Two prices by the widest gap, and a gap to charge each with.
#[derive(Clone, Copy, Debug, PartialEq, Eq)]
pub struct Turn {
    pub one: u32,
    pub one_gap: u32,
    pub other: u32,
    pub other_gap: u32,
}

// Both cost 5 when charged so. With one column more the first costs 6, and the second still 5.
fn five_for_five() -> Turn
    ensures { Turns result.one result.one_gap result.other result.other_gap }
{
    Turn {
        one: 0,
        one_gap: 5,
        other: 5,
        other_gap: 0,
    }
}

/// Charged so, the first price is not above the second, and is above it with one column more in
/// both gaps. So the widest gap keeps no order as the window moves, whatever counts as its depth.
pub fn turned_by_one_column() -> Turn
    ensures turns { Turns result.one result.one_gap result.other result.other_gap }
    ensures no_price { NoPrice }
{
    five_for_five()
}
