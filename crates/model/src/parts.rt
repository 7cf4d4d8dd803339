//! What a crate is put together from, beside its segments and the modules themselves.
use crate::cells::Space;
use arbitration::Access;

/// What an interconnect remembers of its failures, until it is cleared.
#[derive(Clone, Copy, PartialEq, Eq, Debug)]
pub struct Flags {
    /// Flag 11: an address came to its far segment and found nothing there to go on with.
    pub failed: bool,
    /// Flag 12: an address took it, and another won its far segment.
    pub lost: bool,
}

/// An interconnect. It stands at a position of its near segment and is a contender of its far segment.
/// At most one leads to a segment, so it is named by its far segment.
#[derive(Clone, Copy, PartialEq, Eq, Debug)]
pub struct Interconnect {
    pub near: u8,
    pub position: u8,
    pub far: u8,
    /// Its level on the far segment.
    pub level: u8,
    /// Its access there.
    pub access: Access,
    /// The groups that it passes, a bit for each: bit 0 for group 1, up to bit 7 for group 8.
    // The number that is set at the interconnect: eight flags with names would be no plainer.
    pub mask: u8,
    pub flags: Flags,
}

/// A module's two pointers, one for each space: the address that the next data cycle goes to.
#[derive(Clone, Copy, PartialEq, Eq, Debug)]
pub struct Pointers {
    pub data: u32,
    pub csr: u32,
}

/// Where a module stands, and what the crate keeps for it. A module is identified by the index of its slot.
#[derive(Clone, Copy, PartialEq, Eq, Debug)]
pub struct Slot {
    pub segment: u8,
    pub position: u8,
    /// The module's number on its segment, 0 for none.
    // No `Option`: it is compared with the number in an address word, which says none by 0 too.
    pub number: u8,
    pub pointers: Pointers,
}

/// A module that a master is linked to, by the index of its slot, and the space.
// An index and no reference: a crate knows its modules by index only, and what they hold is the halls' own.
#[derive(Clone, Copy, PartialEq, Eq, Debug)]
pub struct Link {
    pub slot: usize,
    pub space: Space,
}

/// What the master that owns a segment has under way: begun with a group, and linked or not yet.
#[derive(Clone, Copy, PartialEq, Eq, Debug)]
pub struct Operation {
    pub group: u8,
    pub link: Option<Link>,
}
