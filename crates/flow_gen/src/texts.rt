ghost use Rattle.flow_gen.specs.Laws.{TextsSayTheirWorkflow, TextsAreRead, WorkflowsAreClosed};

/// A generated text is never refused: it says the workflow that it was made from, and names nothing that is not
/// declared.
pub fn law_generated_texts_are_read()
    ensures says { TextsSayTheirWorkflow }
    ensures read { TextsAreRead }
    ensures closed { WorkflowsAreClosed }
{}
