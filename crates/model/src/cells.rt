//! What a module holds.

/// The two address spaces of a module: data, and control and status registers.
#[derive(Clone, Copy, PartialEq, Eq, Debug)]
pub enum Space {
    Data,
    Csr,
}

/// What a module holds at one address of one space.
#[derive(Clone, Copy, PartialEq, Eq, Debug)]
pub enum Cell {
    /// There is no word here.
    Absent,
    /// A word that cannot be written.
    Fixed(u32),
    /// A word that can be written.
    Open(u32),
}
