//! The bytes of nodes in a file.

pub const TARGET_ATOM: u8 = 0x10;

pub const TARGET_NOT: u8 = 0x11;

pub const TARGET_OPTIONAL: u8 = 0x12;

pub const TARGET_AND: u8 = 0x13;

pub const TARGET_OR: u8 = 0x14;

pub const DENY: u8 = 0x20;

pub const ALLOW: u8 = 0x21;

pub const TARGETED: u8 = 0x22;

pub const POLICY_NOT: u8 = 0x23;

pub const DENY_BY_DEFAULT: u8 = 0x24;

pub const POLICY_AND: u8 = 0x25;

pub const POLICY_OR: u8 = 0x26;
