ghost use Rattle.trials.specs.Examples.{Examples};

/// All shown examples together, as the definitions have them.
pub fn examples()
    ensures { Examples }
{}
