//! The worked examples, in the definitions that the calls use.

ghost use Rattle.circle.specs.Examples.{Examples};
ghost use Rattle.circle.specs.FurtherExamples.{FurtherExamples};

// The worked examples, computed once.
fn examples_shown()
    ensures { Examples }
{}

/// The worked examples hold.
pub fn worked_examples()
    ensures { Examples }
{
    examples_shown();
}

// Those of bytes and of rounds, computed once.
fn further_shown()
    ensures { FurtherExamples }
{}

/// The worked examples of bytes and of rounds hold.
pub fn further_examples()
    ensures { FurtherExamples }
{
    further_shown();
}
