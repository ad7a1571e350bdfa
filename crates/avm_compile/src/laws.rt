ghost use Rattle.avm_compile.specs.Laws.{NamesAreInOrder, NamedBlocksAreThere, PhrasesHaveBlocks, EachBlockIsAwaitedOnce, NamesAreUnlike, WaitingBlocksAreKnown, BlocksAreWhereEventsAre, CodeIsShort, MakesTheEvents, MakesEachEventOnce, CodeEndsOnce, StacksFit, HeightsAreLow, RemoteBlocksAreRequests};

/// In the program of every phrase the root block comes first, at the session's place, and the names
/// of the others rise and are numbers of events.
pub fn names_are_in_order()
    ensures { NamesAreInOrder }
{}

/// In the program of every phrase each block that an instruction names is there exactly once, at the
/// place that is asked or, for a right arm, at the place of the branch.
pub fn named_blocks_are_there()
    ensures { NamedBlocksAreThere }
{}

/// The program of every phrase has exactly one block for each request, at the place that is asked and
/// with the code of what it asks for, and one for each right arm of a parallel branch, at the place of
/// the branch and with the code of the arm.
pub fn phrases_have_blocks()
    ensures { PhrasesHaveBlocks }
{}

/// In the program of every phrase no two blocks have one name, each block but the root's is awaited by
/// exactly one instruction, and which block waits for it is a function of the program.
pub fn blocks_are_awaited_once()
    ensures once { EachBlockIsAwaitedOnce }
    ensures unlike { NamesAreUnlike }
    ensures known { WaitingBlocksAreKnown }
{}

/// In the program of every phrase each block is at the place of an event of the phrase: whatever all of
/// these places have, such as a key, each block's place has too.
pub fn blocks_are_where_events_are()
    ensures { BlocksAreWhereEventsAre }
{}

/// The instructions of the program of a phrase make the events of the phrase, with their numbers,
/// kinds and places, and each exactly once.
pub fn each_event_is_made_once()
    ensures events { MakesTheEvents }
    ensures once { MakesEachEventOnce }
{}

/// In the program of every phrase each block's code ends with `End` and has it nowhere else.
pub fn code_ends_once()
    ensures { CodeEndsOnce }
{}

/// In the program of every phrase each block has at most two instructions for each event of the phrase,
/// and its end.
pub fn code_is_short()
    ensures { CodeIsShort }
{}

/// In the program of every sized phrase the height of a machine's stack is fixed at each instruction of
/// a block's code: it is enough for what the instruction takes, 0 at the end, and at most 65.
pub fn stacks_fit()
    ensures fit { StacksFit }
    ensures low { HeightsAreLow }
{}

/// In the program of every phrase the blocks that places are asked to run are those of the phrase's
/// requests, so that a block's end knows whether its result is a reply or that of a right arm.
pub fn remote_blocks_are_requests()
    ensures { RemoteBlocksAreRequests }
{}
