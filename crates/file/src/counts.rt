// How many lines each section has. The head has one.
#[derive(Clone, Copy, PartialEq, Eq, Debug)]
pub struct Counts {
    pub instruments: u32,
    pub contracts: u32,
    pub accounts: u32,
    pub openings: u32,
    pub limits: u32,
    pub risks: u32,
    pub ranges: u32,
    pub credits: u32,
    pub calls: u32,
}
