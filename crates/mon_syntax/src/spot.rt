//! Where addresses of flat memory point.

/// One of the three regions of flat memory.
#[derive(Clone, Copy, PartialEq, Eq, Debug)]
pub enum RegionName {
    Globals,
    Stack,
    Heap,
}

/// Where a pointer points: nowhere, or so many bytes from the beginning of a region.
#[derive(Clone, Copy, PartialEq, Eq, Debug)]
pub enum Spot {
    Nowhere,
    In(RegionName, u32),
}
