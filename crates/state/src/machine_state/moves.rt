// A state is made, and made new again.
ghost use Rattle.std.specs.Prelude.{◌≡◌, IfOk};
ghost use Rattle.state.specs.States.{state, fresh};

use super::State;
use crate::contents::Cells;
use crate::history::History;
use crate::stack::Stack;
use crate::store::Store;
use cells::kind::Kind;
use std::alloc::{AllocError, Global};

impl State {
    // Nothing on the stack, no fact, the whole content in each cell, nothing fired; the next identifier is 1.
    pub fn new<K: Kind>(heap: Global) -> Result<State, AllocError>
        ensures { IfOk result (λ s. state s ≡ fresh K.Kind.whole) }
    {
        let stack = Stack::new(heap)?;
        let store = Store::new(heap)?;
        let history = History::new(heap)?;
        let cells = Cells::whole::<K>();
        Ok(State {
            stack,
            store,
            cells,
            history,
        })
    }

    // The same once more, in the room that is there.
    pub fn clear<K: Kind>(&mut self)
        ensures { state self.new ≡ fresh K.Kind.whole }
    {
        self.stack.clear();
        self.store.clear();
        self.cells = Cells::whole::<K>();
        self.history.clear();
    }
}

#[cfg(test)]
mod tests {
    use crate::machine_state::State;
    use cells::bounds::Bounds;
    use std::test::Fail;

    #[test]
    fn is_made_empty(rt: HostRuntime) -> Result<(), Fail> {
        let state = State::new::<Bounds>(rt.alloc())?;
        assert_eq!(rt; state.stack.len(), 0);
        assert!(rt; state.store.list().is_empty());
        assert_eq!(rt; state.store.next(), 1);
        assert_eq!(rt; state.history.len(), 0);
        Ok(())
    }
}
