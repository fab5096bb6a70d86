// What is fixed in every message of this format and suite.

// what a message begins with: version 2, and the suite 0x0478 (AES-256-GCM, HKDF with SHA-512, key commitment)
pub const START: [u8; 3] = [2, 4, 120];

// the content type: framed
pub const FRAMED: [u8; 1] = [2];

// the longest field, and the most encrypted data keys
pub const MAX_FIELD: usize = 65_535;

// the most frames
pub const MAX_FRAMES: u64 = 4_294_967_295;

// a text has fewer bytes than this
pub const TEXT_LIMIT: u64 = 9_223_372_036_854_775_808;
