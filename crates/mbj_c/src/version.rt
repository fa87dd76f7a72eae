/// The library's version: major, minor and patch number, a byte each, the patch number last.
pub const VERSION: u32 = 0x01_00_00;
