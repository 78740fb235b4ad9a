// The commands, and the words that each takes.
use std::fmt;

// A command by its word alone.
#[derive(Clone, Copy, Debug, PartialEq, Eq)]
pub enum Name {
    Check,
    Show,
    Mark,
    Reduce,
    Plan,
    CheckPlan,
    Sheet,
    Translate,
    Lines,
}

// All of them, in the order in which they are listed.
const NAMES: [Name; 9] = [
    Name::Check,
    Name::Show,
    Name::Mark,
    Name::Reduce,
    Name::Plan,
    Name::CheckPlan,
    Name::Sheet,
    Name::Translate,
    Name::Lines,
];

impl Name {
    // The command that a word names.
    fn of(word: &[u8]) -> Option<Name> {
        match word {
            b"check" => Some(Name::Check),
            b"show" => Some(Name::Show),
            b"mark" => Some(Name::Mark),
            b"reduce" => Some(Name::Reduce),
            b"plan" => Some(Name::Plan),
            b"check-plan" => Some(Name::CheckPlan),
            b"sheet" => Some(Name::Sheet),
            b"translate" => Some(Name::Translate),
            b"-" => Some(Name::Lines),
            _ => None,
        }
    }
}

// The words of the command.
impl fmt::Display for Name {
    fn fmt<W: fmt::Write>(&self, f: &mut fmt::Formatter<W>) -> fmt::Result {
        f.write_str(match self {
            Name::Check => "check FILE",
            Name::Show => "show FILE",
            Name::Mark => "mark TASK LEVEL",
            Name::Reduce => "reduce TASK LEVEL SIGNER REDUCED ORIGIN",
            Name::Plan => "plan TASK SIGNER PLAN [LEVEL]",
            Name::CheckPlan => "check-plan TASK PLAN",
            Name::Sheet => "sheet TASK PLAN PAGE",
            Name::Translate => "translate TEXT SIGNER TASK",
            Name::Lines => "-",
        })
    }
}

// Words that are no command: the words of the command that they name, or of all where they name none.
#[derive(Clone, Copy, Debug, PartialEq, Eq)]
pub enum Usage {
    Of(Name),
    OfAll,
}

impl Usage {
    // By the first of some words.
    pub fn of(words: &[&[u8]]) -> Usage {
        match words.first().and_then(|word| Name::of(word)) {
            Some(name) => Usage::Of(name),
            None => Usage::OfAll,
        }
    }
}

impl fmt::Display for Usage {
    fn fmt<W: fmt::Write>(&self, f: &mut fmt::Formatter<W>) -> fmt::Result {
        match self {
            Usage::Of(name) => write!(f, "failed usage: {name}"),
            Usage::OfAll => {
                for name in NAMES {
                    writeln!(f, "usage: {name}")?;
                }
                write!(f, "failed usage: COMMAND WORDS")
            }
        }
    }
}

// `plan` plans at this level where no word says another.
const PLAN_LEVEL: u32 = 4;

// A command with what its words say: names of files, levels and signers.
#[derive(Clone, Copy, Debug)]
pub enum Command<'a> {
    Check {
        file: &'a [u8],
    },
    Show {
        file: &'a [u8],
    },
    Mark {
        task: &'a [u8],
        level: u32,
    },
    Reduce {
        task: &'a [u8],
        level: u32,
        signer: u32,
        reduced: &'a [u8],
        origin: &'a [u8],
    },
    Plan {
        task: &'a [u8],
        signer: u32,
        plan: &'a [u8],
        level: u32,
    },
    CheckPlan {
        task: &'a [u8],
        plan: &'a [u8],
    },
    Sheet {
        task: &'a [u8],
        plan: &'a [u8],
        page: &'a [u8],
    },
    Translate {
        text: &'a [u8],
        signer: u32,
        task: &'a [u8],
    },
    Lines,
}

impl<'a> Command<'a> {
    // The file that the command reads first.
    pub fn first_file(&self) -> Option<&'a [u8]> {
        match *self {
            Command::Check { file } | Command::Show { file } => Some(file),
            Command::Mark { task, .. }
            | Command::Reduce { task, .. }
            | Command::Plan { task, .. }
            | Command::CheckPlan { task, .. }
            | Command::Sheet { task, .. } => Some(task),
            Command::Translate { text, .. } => Some(text),
            Command::Lines => None,
        }
    }

    // The command of some words. A word that is empty or has a line feed, which would end the line that a
    // name is printed in, is none.
    pub fn of(words: &[&'a [u8]]) -> Result<Command<'a>, Usage> {
        let [first, others @ ..] = words else {
            return Err(Usage::OfAll);
        };
        let name = Name::of(first).ok_or(Usage::OfAll)?;
        if others
            .iter()
            .any(|word| word.is_empty() || word.contains(&b'\n'))
        {
            return Err(Usage::Of(name));
        }
        with_words(name, others).ok_or(Usage::Of(name))
    }
}

// A command with the words behind its own, where they are those that it takes.
fn with_words<'a>(name: Name, words: &[&'a [u8]]) -> Option<Command<'a>> {
    match (name, words) {
        (Name::Check, &[file]) => Some(Command::Check { file }),
        (Name::Show, &[file]) => Some(Command::Show { file }),
        (Name::Mark, &[task, level]) => Some(Command::Mark {
            task,
            level: number(level)?,
        }),
        (Name::Reduce, &[task, level, signer, reduced, origin]) => Some(Command::Reduce {
            task,
            level: number(level)?,
            signer: number(signer)?,
            reduced,
            origin,
        }),
        (Name::Plan, &[task, signer, plan]) => Some(Command::Plan {
            task,
            signer: number(signer)?,
            plan,
            level: PLAN_LEVEL,
        }),
        (Name::Plan, &[task, signer, plan, level]) => Some(Command::Plan {
            task,
            signer: number(signer)?,
            plan,
            level: number(level)?,
        }),
        (Name::CheckPlan, &[task, plan]) => Some(Command::CheckPlan { task, plan }),
        (Name::Sheet, &[task, plan, page]) => Some(Command::Sheet { task, plan, page }),
        (Name::Translate, &[text, signer, task]) => Some(Command::Translate {
            text,
            signer: number(signer)?,
            task,
        }),
        (Name::Lines, &[]) => Some(Command::Lines),
        _ => None,
    }
}

// The number that a word is: decimal digits, and no sign before them.
fn number(word: &[u8]) -> Option<u32> {
    if !word.iter().all(|digit| digit.is_ascii_digit()) {
        return None;
    }
    str::from_utf8(word).ok()?.parse().ok()
}
