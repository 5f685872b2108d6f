//! The worked examples as one proved statement.
ghost use Rattle.examples.specs.Worked.{WorkedExamples};

/// Meets and joins, both policies judged, labels and paths: each row of the table holds by the definitions.
/// It does nothing: a caller learns the fact.
pub fn worked_examples_hold()
    ensures { WorkedExamples }
{}
