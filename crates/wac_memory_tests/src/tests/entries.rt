//! A collection with three entries of each sort: a plain one, one that names others, and one more.

// A line for each entry, and a place for one that is added.
pub(crate) const ENTRIES: [&str; 19] = [
    "def list u8",
    "res file",
    "func sync -",
    "iface -",
    "world -",
    "module",
    "def record a=d0",
    "res other r0 i0",
    "func async u8 x=d0",
    "iface p:i/n u:t=i0=u e:x=I:i0",
    "world p:w/n u:t=i0=u m:i=I:i0 e:c=C:w0",
    "module m:e,t=table:null.3:1:4:1:0 e:x=tag:i32:",
    "def option u8",
    "res third",
    "func sync u8",
    "iface -",
    "world -",
    "module",
    "",
];
