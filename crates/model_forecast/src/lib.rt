// What the program `limits` prints (docs/REFERENCE.md, section 9): the plain data. What it means is in specs/, and no
// laws.
#![tactic(auto)]

// A number that an argument of the program says, or none.
pub type Given = Option<f64>;

// What the arguments ask for: the chance that tubes are to cover, and a total in place of the one that follows from the
// inputs.
#[derive(Clone, Copy)]
pub struct Asked {
    pub chance: Given,
    pub total: Given,
}

// What is said of the total: whether the answer is whole, its number of variables, the place that stands in the way of
// its total, 64 for none, and the kind of that step; the total, and how much of it is shown.
#[derive(Clone, Copy)]
pub struct Sums {
    pub whole: bool,
    pub vars: usize,
    pub bar: usize,
    pub kind: usize,
    pub amount: f64,
    pub shown: f64,
}
