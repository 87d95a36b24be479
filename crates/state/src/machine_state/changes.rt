// Changes are redone and undone.
ghost use Rattle.std.specs.Prelude.{◌≡◌, map};
ghost use Rattle.state.specs.States.{state};
ghost use Rattle.state.specs.Changes.{change as the-change, redo_one, undo_one, redone, undone};

use super::State;
use crate::change::Change;

impl State {
    // A change is made once more.
    pub fn redo(&mut self, change: Change)
        ensures { state self.new ≡ redo_one (the-change change) (state self.old) }
    {
        match change {
            Change::Added(fact) => self.store.add_again(fact),
            Change::Removed(fact) => self.store.remove(fact.identifier),
            Change::Fired(firing) => self.history.record(firing),
            Change::Altered { cell, old: _, new } => self.cells.set(cell, new),
        }
    }

    // A change, the last one made, is taken back.
    pub fn undo(&mut self, change: Change)
        ensures { state self.new ≡ undo_one (the-change change) (state self.old) }
    {
        match change {
            Change::Added(_) => self.store.take_back(),
            Change::Removed(fact) => self.store.put_back(fact),
            Change::Fired(_) => self.history.forget(),
            Change::Altered { cell, old, new: _ } => self.cells.set(cell, old),
        }
    }

    // Changes are made once more, from the first to the last.
    pub fn redo_all(&mut self, changes: &[Change])
        ensures { state self.new ≡ redone (map the-change changes.now) (state self.old) }
    {
        for change in changes {
            self.redo(*change);
        }
    }

    // Changes are taken back, from the last to the first.
    pub fn undo_all(&mut self, changes: &[Change])
        ensures { state self.new ≡ undone (map the-change changes.now) (state self.old) }
    {
        for change in changes.iter().rev() {
            self.undo(*change);
        }
    }
}
