// Tasks and their files, by code of this program's own. A file is a list of records, each of them numbers
// of 2 bytes: how many bytes its body has, its kind, and the body.

// A value of a variable: of a state, a goal, a condition or an effect.
#[derive(Clone, Copy, Debug, Default, PartialEq, Eq)]
pub struct Fact {
    pub variable: u16,
    pub value: u16,
}

#[derive(Clone, Copy, Debug, Default, PartialEq, Eq)]
pub struct Variable {
    pub size: u16,
    pub start: u16,
}

// At most 4 facts, since no task here has more variables.
// Kept: a list for each kind of item, since a generic struct can hold no array of a type parameter, and a `Vec` takes memory.
#[derive(Clone, Copy, Default)]
pub struct Facts {
    items: [Fact; 4],
    count: usize,
}

impl Facts {
    pub fn as_slice(&self) -> &[Fact] {
        self.items.split_at(self.count.min(4)).0
    }

    // Adds a fact, if there is room.
    pub fn push(&mut self, fact: Fact) -> Option<()> {
        *self.items.get_mut(self.count)? = fact;
        self.count += 1;
        Some(())
    }
}

// At most 4 variables.
#[derive(Clone, Copy, Default)]
pub struct Variables {
    items: [Variable; 4],
    count: usize,
}

impl Variables {
    pub fn as_slice(&self) -> &[Variable] {
        self.items.split_at(self.count.min(4)).0
    }

    // Adds a variable, if there is room.
    pub fn push(&mut self, variable: Variable) -> Option<()> {
        *self.items.get_mut(self.count)? = variable;
        self.count += 1;
        Some(())
    }
}

#[derive(Clone, Copy, Default)]
pub struct Action {
    pub cost: u32,
    pub conditions: Facts,
    pub effects: Facts,
}

// At most 10 actions.
#[derive(Clone, Copy, Default)]
pub struct Actions {
    items: [Action; 10],
    count: usize,
}

impl Actions {
    pub fn as_slice(&self) -> &[Action] {
        self.items.split_at(self.count.min(10)).0
    }

    // Adds an action, if there is room.
    pub fn push(&mut self, action: Action) -> Option<()> {
        *self.items.get_mut(self.count)? = action;
        self.count += 1;
        Some(())
    }
}

#[derive(Clone, Copy, Default)]
pub struct Task {
    pub variables: Variables,
    pub goal: Facts,
    pub actions: Actions,
}

// The kinds of records.
#[derive(Clone, Copy, Debug, PartialEq, Eq)]
enum Kind {
    Header = 1,
    Variable = 2,
    Goal = 3,
    Action = 4,
    SignOff = 5,
    Plan = 8,
}

// How many bytes there are for a file, as many as the longest here can have.
pub const ROOM: usize = 512;

// A file, in the first of its bytes.
#[derive(Clone, Copy)]
pub struct File {
    bytes: [u8; ROOM],
    length: usize,
}

impl File {
    pub fn new() -> File {
        File::of([0; ROOM], 0)
    }

    pub fn of(bytes: [u8; ROOM], length: usize) -> File {
        File { bytes, length }
    }

    pub fn as_slice(&self) -> &[u8] {
        self.bytes.split_at(self.length.min(ROOM)).0
    }

    // Adds numbers, as far as there is room.
    fn put(&mut self, numbers: &[u16]) {
        for number in numbers {
            for byte in number.to_le_bytes() {
                if let Some(place) = self.bytes.get_mut(self.length) {
                    *place = byte;
                    self.length += 1;
                }
            }
        }
    }

    // Adds the head of a record with so many numbers.
    fn put_head(&mut self, kind: Kind, numbers: usize) {
        self.put(&[count(numbers).saturating_mul(2), kind as u16]);
    }

    fn put_record(&mut self, kind: Kind, body: &[u16]) {
        self.put_head(kind, body.len());
        self.put(body);
    }

    fn put_facts(&mut self, facts: &[Fact]) {
        for fact in facts {
            self.put(&[fact.variable, fact.value]);
        }
    }

    // Adds the record with the signer and how many bytes stand before it.
    fn sign(&mut self, signer: u32) {
        let before = u32::from(count(self.length));
        let [signer, above] = halves(signer);
        let [length, over] = halves(before);
        self.put_record(Kind::SignOff, &[signer, above, length, over]);
    }
}

impl Task {
    // The task of a file, if it is one.
    pub fn read(file: &[u8]) -> Option<Task> {
        let mut records = Records(file);
        let [variables, actions] = pair(records.next(Kind::Header)?)?;
        let mut task = Task::default();
        for _ in 0..variables {
            let [size, start] = pair(records.next(Kind::Variable)?)?;
            task.variables.push(Variable { size, start })?;
        }
        task.goal = read_facts(records.next(Kind::Goal)?)?;
        for _ in 0..actions {
            task.actions
                .push(read_action(records.next(Kind::Action)?)?)?;
        }
        Some(task)
    }

    // The file of the task under a signer.
    pub fn file(&self, signer: u32) -> File {
        let mut file = File::new();
        let variables = self.variables.as_slice();
        let goal = self.goal.as_slice();
        let actions = self.actions.as_slice();
        file.put_record(
            Kind::Header,
            &[count(variables.len()), count(actions.len())],
        );
        for variable in variables {
            file.put_record(Kind::Variable, &[variable.size, variable.start]);
        }
        file.put_head(Kind::Goal, 2 * goal.len());
        file.put_facts(goal);
        for action in actions {
            let [lower, upper] = halves(action.cost);
            let conditions = action.conditions.as_slice();
            let effects = action.effects.as_slice();
            file.put_head(Kind::Action, 4 + 2 * conditions.len() + 2 * effects.len());
            file.put(&[lower, upper, count(conditions.len()), count(effects.len())]);
            file.put_facts(conditions);
            file.put_facts(effects);
        }
        file.sign(signer);
        file
    }
}

// The file of a plan under a signer.
pub fn plan_file(actions: &[u16], signer: u32) -> File {
    let mut file = File::new();
    file.put_record(Kind::Plan, actions);
    file.sign(signer);
    file
}

// The records of a file that are still to be read.
#[derive(Clone, Copy)]
struct Records<'a>(&'a [u8]);

impl<'a> Records<'a> {
    // The body of the next one, which is of a kind.
    fn next(&mut self, kind: Kind) -> Option<&'a [u8]> {
        let (head, rest) = self.0.split_at_checked(4)?;
        let [length, number] = pair(head)?;
        if number != kind as u16 {
            return None;
        }
        let (body, rest) = rest.split_at_checked(usize::from(length))?;
        self.0 = rest;
        Some(body)
    }
}

// The action of a record's body.
fn read_action(body: &[u8]) -> Option<Action> {
    let (cost, rest) = body.split_at_checked(4)?;
    let [lower, upper] = pair(cost)?;
    let (counts, pairs) = rest.split_at_checked(4)?;
    let [conditions, count] = pair(counts)?;
    let (conditions, effects) = pairs.split_at_checked(4 * usize::from(conditions))?;
    if effects.len() != 4 * usize::from(count) {
        return None;
    }
    Some(Action {
        cost: u32::from(lower) + 65536 * u32::from(upper),
        conditions: read_facts(conditions)?,
        effects: read_facts(effects)?,
    })
}

fn read_facts(bytes: &[u8]) -> Option<Facts> {
    let mut facts = Facts::default();
    for bytes in bytes.chunks(4) {
        let [variable, value] = pair(bytes)?;
        facts.push(Fact { variable, value })?;
    }
    Some(facts)
}

// The two numbers of 4 bytes.
fn pair(bytes: &[u8]) -> Option<[u16; 2]> {
    let &[first, second, third, fourth] = bytes else {
        return None;
    };
    Some([
        u16::from_le_bytes([first, second]),
        u16::from_le_bytes([third, fourth]),
    ])
}

// A number of 4 bytes as two, the lower first.
fn halves(number: u32) -> [u16; 2] {
    [(number % 65536) as u16, (number / 65536) as u16]
}

// A count as a number of 2 bytes; the files here have no greater one.
fn count(number: usize) -> u16 {
    u16::try_from(number).unwrap_or(u16::MAX)
}
