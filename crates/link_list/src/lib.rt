// A row of the link list (02 §4). The definitions of its bytes and of the four calls are in specs/, what is promised in specs/Demand.antt. The fields
// are wide enough to hold a number that is out of range, which a writing refuses.
#![tactic(auto)]

#[derive(Clone, Copy)]
pub struct Row {
    // The accession's count of digits, 1 to 16.
    pub count: u64,
    // Those digits as a whole number, below ten to the count.
    pub value: u64,
    // The figure's number, below 2^32.
    pub figure: u64,
}
