ghost use denote.Param.Send.{IsSync};
ghost use Rattle.reader_choices.specs.contracts.choices.Choices as Choices;

/// A reader's choices may be shared among threads.
pub fn choices_are_shared()
    ensures { IsSync Choices.the_row }
{}
