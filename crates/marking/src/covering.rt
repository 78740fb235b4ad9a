// Covered actions. What could cover what is read from a table of sets.
ghost use Rattle.std.specs.Prelude.{◌≡◌, ℕ, ◌<◌, ◌&&◌, not, eqb, get_or};
ghost use Rattle.bits.specs.Sets.{FirstFrom};
ghost use Rattle.files.specs.Below.{bit};
ghost use Rattle.files.specs.Clauses.{WithinLimits};
ghost use Rattle.marking.specs.Clauses.{ActionAmong, ActionFrom, TwoActions, TwoRows, CovererIs};
ghost use Rattle.marking.specs.Dense.{unlike, kept_alike, covers_at, covered_at, counted_at};
ghost use Rattle.marking.specs.Levels.{level_number};

use crate::cells;
use crate::levels::Level;
use bits::sets;
use files::arrays::Arrays;
use files::limits;

// Whether a variable is tracked and the two effects on it are unlike.
fn is_unlike(tracked: u8, effect: u8, other: u8) -> bool
    ensures { result ≡ (eqb tracked 1 && not (eqb effect other)) }
{
    tracked == 1 && effect != other
}

// A round, as covering looks at it: the actions that are kept, those whose conditions were among F before,
// the table of what could cover what, and the tracked variables.
#[derive(Clone, Copy)]
pub struct Round<'a> {
    pub task: &'a Arrays,
    pub level: Level,
    pub kept: &'a [u8; 512],
    pub counted_before: &'a [u8; 512],
    pub could_cover: &'a [u64; 4096],
    pub tracked: &'a [u8; 64],
}

impl Round<'_> {
    // On how many tracked variables the effects at `base` and at `other` are unlike.
    fn unlike(&self, base: usize, other: usize) -> u8
        requires { TwoRows base other self.now.task.now.variables }
        ensures { result ≡ unlike self.now.task.now.effects self.now.tracked.now base other self.now.task.now.variables }
    {
        let effects = &self.task.effects;
        let tracked = self.tracked;
        cells::count_where(self.task.variables, |v| {
            is_unlike(tracked[v], effects[base + v], effects[other + v])
        })
    }

    // Whether b is kept and its effects on tracked variables are those of a.
    fn is_kept_alike(&self, b: usize, a: usize) -> bool
        requires { TwoActions self.now.task.now.variables b a }
        ensures { result ≡ kept_alike self.now.kept.now self.now.task.now.effects self.now.tracked.now self.now.task.now.variables b a }
    {
        self.kept[b] == 1 && self.unlike(limits::ROW * b, limits::ROW * a) == 0
    }

    // The first action from `from` on that covers a, or the number of actions: only those that could are tried.
    fn find_coverer(&self, a: usize, from: usize) -> usize
        requires { ActionFrom self.now.task.now.variables self.now.task.now.actions a from }
        ensures { FirstFrom (λ b. covers_at self.now.kept.now self.now.could_cover.now self.now.task.now.effects self.now.tracked.now self.now.task.now.variables b a) self.now.task.now.actions from result }
    {
        let could_cover = self.could_cover;
        for b in sets::numbers_in(could_cover, 8 * a, from, self.task.actions) {
            if self.is_kept_alike(b, a) {
                return b;
            }
        }
        self.task.actions
    }

    // An action that covers a, or the number of actions: sought from the one that did so before on, then from the first.
    fn coverer(&self, a: usize, before: u16) -> usize
        requires { ActionAmong self.now.task.now.variables self.now.task.now.actions a }
        ensures { CovererIs result self.now.task.now.actions (covered_at self.now.kept.now self.now.could_cover.now self.now.task.now.effects self.now.tracked.now self.now.task.now.variables self.now.task.now.actions a) }
    {
        let first = before as usize;
        if 0 < first && first < self.task.actions {
            let found = self.find_coverer(a, first);
            if found < self.task.actions {
                return found;
            }
        }
        self.find_coverer(a, 0)
    }

    // Whether F has or gains the conditions of an action. What covers it is kept in `coverers`.
    fn is_counted(&self, coverers: &mut [u16; 512], a: usize) -> bool
        requires { ActionAmong self.now.task.now.variables self.now.task.now.actions a }
        ensures { result ≡ counted_at (level_number self.now.level) self.now.kept.now self.now.counted_before.now (covered_at self.now.kept.now self.now.could_cover.now self.now.task.now.effects self.now.tracked.now self.now.task.now.variables self.now.task.now.actions a) a }
    {
        if self.counted_before[a] == 1 {
            return true;
        }
        if self.kept[a] != 1 {
            return false;
        }
        if !self.level.has_covering() {
            return true;
        }
        let by = self.coverer(a, coverers[a]);
        coverers[a] = by as u16;
        self.task.actions <= by
    }

    // The actions whose conditions F has or gains: at level 4 those that are not covered, else all.
    pub fn counted(&self, coverers: &mut [u16; 512]) -> [u8; 512]
        requires { WithinLimits self.now.task.now.variables self.now.task.now.actions }
        ensures { (a : ℕ) → a < self.now.task.now.actions → get_or result a 0 ≡ bit (counted_at (level_number self.now.level) self.now.kept.now self.now.counted_before.now (covered_at self.now.kept.now self.now.could_cover.now self.now.task.now.effects self.now.tracked.now self.now.task.now.variables self.now.task.now.actions a) a) }
    {
        let mut marks = [0; 512];
        for a in 0..self.task.actions {
            marks[a] = u8::from(self.is_counted(coverers, a));
        }
        marks
    }
}
