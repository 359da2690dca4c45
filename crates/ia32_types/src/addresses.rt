//! Where a kernel stands (profile): the linear addresses and pages of its text and data, the wedge
//! window, and where its text lies in the guest's memory.

/// The linear address of the text's first byte.
pub const TEXT_ADDRESS: u32 = 0x1000_0000;

/// The page of the text's first byte.
pub const TEXT_PAGE: u32 = 0x1_0000;

/// The linear address of the data's first byte, which is also the first that no window of a monitor
/// bars from the kernel.
pub const DATA_ADDRESS: u32 = 0x1100_0000;

/// The page of the data's first byte.
pub const DATA_PAGE: u32 = 0x1_1000;

/// The linear address of the first byte of the wedge window, in which each site has an address.
pub const WINDOW_ADDRESS: u32 = 0x0400_0000;

/// The linear address just past the wedge window.
pub const WINDOW_END: u32 = 0x0600_0000;

/// How far the address in the wedge window to which a site's jump leads lies below the site's own:
/// the bytes E9 F4 F4 F4 F4 say a distance of -0x0B0B_0B0C from their end.
pub const WINDOW_BELOW: u32 = 0x0B0B_0B07;

/// Where the text's first byte lies in the guest's memory.
pub const TEXT_PLACE: u32 = 0x10_0000;

/// The frame of the text's first byte, after those of the tables.
pub const TEXT_FRAME: u32 = 0x100;

/// How many pages the linear addresses fill.
pub const PAGES: u32 = 0x10_0000;

/// The last page of the linear addresses.
pub const LAST_PAGE: u32 = 0xF_FFFF;
