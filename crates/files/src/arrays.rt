// A task, and the origins of a reduced task, as dense arrays: what the layers above work on in place of
// a file. They are long enough for every task.
ghost use Rattle.std.specs.Prelude.{◌≡◌};

// A number per variable, a number per action, and for each action a row of 64 cells, one per variable;
// in a row 255 stands for no pair.
#[derive(Drop)]
pub struct Arrays {
    pub variables: usize,
    pub actions: usize,
    pub sizes: [u8; 64],
    pub starts: [u8; 64],
    pub goal: [u8; 64],
    pub costs: [u32; 512],
    pub conditions: [u8; 32768],
    pub effects: [u8; 32768],
}

impl Arrays {
    // The task of no variables and no actions.
    pub fn empty() -> Arrays
        ensures variables { result.variables ≡ 0 }
        ensures actions { result.actions ≡ 0 }
    {
        Arrays {
            variables: 0,
            actions: 0,
            sizes: [0; 64],
            starts: [0; 64],
            goal: [0; 64],
            costs: [0; 512],
            conditions: [0; 32768],
            effects: [0; 32768],
        }
    }
}

// Original variables, how many values each has, a row of 32 new values for each, original actions.
#[derive(Drop)]
pub struct OriginArrays {
    pub variables: usize,
    pub actions: usize,
    pub numbers: [u8; 64],
    pub sizes: [u8; 64],
    pub values: [u8; 2048],
    pub originals: [u16; 512],
}

impl OriginArrays {
    // The origins of no variables and no actions.
    pub fn empty() -> OriginArrays
        ensures variables { result.variables ≡ 0 }
        ensures actions { result.actions ≡ 0 }
    {
        OriginArrays {
            variables: 0,
            actions: 0,
            numbers: [0; 64],
            sizes: [0; 64],
            values: [0; 2048],
            originals: [0; 512],
        }
    }
}
