// Laws of changes.
ghost use Rattle.state.specs.Undoing.{HeldSound, StaysSound, ComesBack, AllComeBack, AllSound, MadeAgain};

// What is redone within the bounds of a state is undone, change by change and in lists, and made again.
pub fn changes_come_back()
    ensures held { HeldSound }
    ensures stays { StaysSound }
    ensures back { ComesBack }
    ensures all_back { AllComeBack }
    ensures all_sound { AllSound }
    ensures again { MadeAgain }
{}
