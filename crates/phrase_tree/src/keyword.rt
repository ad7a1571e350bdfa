//! The keywords of phrases, in ASCII.

pub const CPY: &[u8] = b"CPY";

pub const SIG: &[u8] = b"SIG";

pub const HSH: &[u8] = b"HSH";

pub const NUL: &[u8] = b"NUL";

pub const USM: &[u8] = b"USM";

pub const KIM: &[u8] = b"KIM";
