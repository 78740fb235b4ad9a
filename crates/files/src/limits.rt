// The limits of tasks, plans and files, and the rows of the dense arrays.
pub const MOST_BYTES: usize = 65536;

pub const MOST_VARIABLES: usize = 64;

pub const MOST_VALUES: usize = 32;

pub const MOST_FACTS: usize = 2048;

pub const MOST_ACTIONS: usize = 512;

pub const MOST_PAIRS: usize = 64;

pub const MOST_COST: usize = 1000000;

pub const MOST_STEPS: usize = 4096;

// The most bytes of an origin file and of a plan file: heads, bodies and sign-off.
pub const MOST_ORIGIN_BYTES: usize = MOST_VARIABLES * (4 + 2 + 2 * MOST_VALUES)
    + (4 + 2 * MOST_ACTIONS)
    + 12;

pub const MOST_PLAN_BYTES: usize = (4 + 2 * MOST_STEPS) + 12;

// How many cells a row has, one per variable.
pub const ROW: usize = 64;

// In a row: no pair on the variable.
pub const NO_PAIR: u8 = 255;
