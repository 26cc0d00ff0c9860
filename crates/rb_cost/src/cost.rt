//! The maximal cost of a program.

/// The maximal cost of a program. Each bound is exact: one path of the program reaches it, and none exceeds it.
#[derive(Debug, Drop)]
pub struct Cost {
    /// The maximal number of instructions that a path executes: at most 4,096.
    pub steps: u64,
    /// The maximal number of helper calls on a path.
    pub calls: u64,
    /// The cost at each ring that the program uses, by the ring's number.
    pub rings: Vec<RingCost>,
}

/// The maximal number of records and bytes that a program requests from one ring, and that it holds there.
#[derive(Clone, Copy, Debug, PartialEq, Eq)]
pub struct RingCost {
    /// The maximal number of records that a path requests, by reserve and by output.
    pub records: u64,
    /// The maximal number of bytes of the ring that the records of a path occupy. Each occupies its span: a header of
    /// eight bytes and its length rounded up to a multiple of eight. At most 4,096 times 67,108,872.
    pub bytes: u64,
    /// The maximal number of reservations that are held before an instruction: at most four.
    pub held_records: u64,
    /// The maximal number of bytes of the ring that the records occupy which are held before an instruction.
    pub held_bytes: u64,
}
