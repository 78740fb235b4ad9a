// The steps to a settled state: each state from which an action leads to it is offered its entry
// with a step more.
ghost use Rattle.std.specs.Prelude.{◌≡◌, ◌<◌, false, length};
ghost use Rattle.distances.specs.Entries.{is_none, table_entry, Low};
ghost use Rattle.distances.specs.Bounds.{NoneAbove};
ghost use Rattle.distances.specs.Rows.{row_states};
ghost use Rattle.distances.specs.Selecting.{Selecting, Offers};
ghost use Rattle.distances.specs.Offers.{differs_from, is_one_of, free_of, number_before, OfferFrom, OfferValues, CanLead, StepsOffered};

use crate::selection::Selection;
use crate::tables::Tables;
use crate::{Entry, states};
use bits::sets;
use plans::Minutes;

impl Selection {
    // Offers the entry to `size` states, from `number` on, each `weight` further.
    fn offer_values(
        &mut self,
        entries: &mut [Entry],
        number: usize,
        weight: usize,
        size: usize,
        entry: Entry,
    )
        requires selecting { Selecting entries.old self.old }
        requires near { is_none entry ≡ false }
        requires inside { OfferValues (length entries.old) number weight size }
        ensures { Offers (is_one_of number weight size) entry entries.old self.old entries.new self.new }
    {
        for value in 0..size {
            self.lower(entries, number + weight * value, entry);
        }
    }
}

impl Tables<'_> {
    // Offers the entry to every state that differs from `number` in no other variables than those of the
    // set `free` from `from` on, which are 0 in it.
    pub fn offer(
        &self,
        selection: &mut Selection,
        entries: &mut [Entry],
        free: u64,
        from: usize,
        number: usize,
        entry: Entry,
    )
        requires selecting { Selecting entries.old selection.old }
        requires states { length entries.old ≡ row_states self.now.task.now.variables self.now.task.now.sizes }
        requires near { is_none entry ≡ false }
        requires from { OfferFrom self.now.task.now free from number }
        ensures { Offers (differs_from self.now.task.now.sizes self.now.task.now.variables free from number) entry entries.old selection.old entries.new selection.new }
    {
        let variables = self.task.variables;
        let v = sets::first_in(free, from, variables);
        if v < variables {
            let weight = self.weights[v];
            let size = self.task.sizes[v] as usize;
            let next = sets::first_in(free, v + 1, variables);
            if next < variables {
                for value in 0..size {
                    let at = number + weight * value;
                    self.offer(selection, entries, free, next, at, entry);
                }
            } else {
                selection.offer_values(entries, number, weight, size, entry);
            }
        } else {
            selection.lower(entries, number, entry);
        }
    }

    // Offers the entry to every state from which action `a` leads to state x; where no entry is above it,
    // there is nothing to do.
    fn offer_action(
        &self,
        selection: &mut Selection,
        entries: &mut [Entry],
        x: usize,
        a: usize,
        entry: Entry,
        bound: Entry,
    )
        requires selecting { Selecting entries.old selection.old }
        requires states { length entries.old ≡ row_states self.now.task.now.variables self.now.task.now.sizes }
        requires near { is_none entry ≡ false }
        requires above { NoneAbove (length entries.old) entries.old bound }
        requires leads { CanLead self.now.task.now self.now.moves.now.actions x a }
        ensures { Offers (differs_from self.now.task.now.sizes self.now.task.now.variables (free_of self.now.moves.now.actions a) 0 (number_before self.now.moves.now.actions a x)) entry entries.old selection.old entries.new selection.new }
    {
        if entry.is_less(bound) {
            let by = self.moves.actions[a];
            self.offer(selection, entries, by.free, 0, x - by.set + by.asked, entry);
        }
    }

    // Offers the entry of state x with a step more to every state from which an action leads to it. No
    // entry is above the bound.
    pub fn offer_steps(
        &self,
        selection: &mut Selection,
        entries: &mut [Entry],
        x: usize,
        bound: Entry,
    )
        requires selecting { Selecting entries.old selection.old }
        requires states { length entries.old ≡ row_states self.now.task.now.variables self.now.task.now.sizes }
        requires below { x < length entries.old }
        requires low { Low (table_entry entries.old x) }
        requires above { NoneAbove (length entries.old) entries.old bound }
        ensures { StepsOffered self.now.task.now x bound entries.old selection.old entries.new selection.new }
    {
        let own = entries[x];
        let values = states::values_of(&self.task.sizes, self.task.variables, x);
        let leading = self.rows.in_all(self.task, &values);
        for a in sets::numbers_in(&leading, 0, 0, self.task.actions) {
            let entry = own.after_step(Minutes(self.task.costs[a] as u64));
            self.offer_action(selection, entries, x, a, entry, bound);
        }
    }
}
