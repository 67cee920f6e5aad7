// Worked sessions of supervision: shown of the definitions, and run as tests.
#![tactic(auto)]

ghost use Rattle.supervision_examples.specs.Sessions.{Sessions};

#[cfg(test)]
mod tests;

// The worked sessions follow from the definitions.
pub fn sessions()
    ensures { Sessions }
{}
