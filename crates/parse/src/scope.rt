// The variables of a rule, numbered by their first appearance.
ghost use Rattle.std.specs.Prelude.{◌≤◌, vec_len};

use words::name::Name;

pub mod tables;

// At most six names.
#[derive(Drop)]
pub struct Names {
    pub list: Vec<Name>,
    ghost few: { vec_len list ≤ 6 },
}

// Which variables may stand: those of the rule's heads, or none, in a goal. Two scopes, in which a variable is another fault, and not a
// scope that may be missing: so no Option.
#[derive(Clone, Copy)]
pub enum Scope<'a> {
    Rule(&'a Names),
    Goal,
}
