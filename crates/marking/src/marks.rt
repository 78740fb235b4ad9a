// The marks as they are handed back, a byte each; 0 is none.
// An action that is kept.
pub const KEPT: u8 = 1;
// A fact that is relevant.
pub const RELEVANT: u8 = 1;
// A fact that is relevant and linked.
pub const LINKED: u8 = 2;
