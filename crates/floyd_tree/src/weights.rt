use sqlite_items::Items;

/// A weight of a certificate: it is given to the hypothesis of this number, or to the negated goal, which is 0.
#[derive(Clone, Copy, PartialEq, Eq, Debug)]
pub struct Weight {
    pub hypothesis: u32,
    pub weight: i128,
}

/// Weights in order.
pub type WeightList = Items<Weight>;
