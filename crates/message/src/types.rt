// The type octets, by the abbreviations of their messages.
pub const IAM: u8 = 0x01;

pub const ACM: u8 = 0x06;

pub const CON: u8 = 0x07;

pub const ANM: u8 = 0x09;

pub const REL: u8 = 0x0c;

pub const RLC: u8 = 0x10;

pub const RSC: u8 = 0x12;

pub const BLO: u8 = 0x13;

pub const UBL: u8 = 0x14;

pub const BLA: u8 = 0x15;

pub const UBA: u8 = 0x16;

pub const GRS: u8 = 0x17;

pub const CGB: u8 = 0x18;

pub const CGU: u8 = 0x19;

pub const CGBA: u8 = 0x1a;

pub const CGUA: u8 = 0x1b;

pub const GRA: u8 = 0x29;

pub const CPG: u8 = 0x2c;
