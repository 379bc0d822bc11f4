//! Laws of the core, each the contract of a call that does nothing.
ghost use Rattle.task_core.specs.Laws.{AnswersAreKernels, EachLeafIsAnswered, WordsMoveForward};
ghost use Rattle.task_core.specs.Desks.{ClaimsAreTakes, PublicationsArePublish, CollectionsAreCollect};

/// Every answer is the kernel's on the opening field, whoever computed it.
pub fn answers_are_kernels()
    ensures { AnswersAreKernels }
{}

/// After the second exchange each leaf has the kernel's answer.
pub fn each_leaf_is_answered()
    ensures { EachLeafIsAnswered }
{}

/// A word only moves forward in the list Free, Taken, Published, Collected.
pub fn words_move_forward()
    ensures { WordsMoveForward }
{}

/// A claim's compare and exchange on a desk that shares its words with a tree of a core is the event of taking: it is won
/// exactly where the event is legal, and the desk shares the words of the core after it.
pub fn claims_are_takes()
    ensures { ClaimsAreTakes }
{}

/// And a publication's is the event of publishing.
pub fn publications_are_publish()
    ensures { PublicationsArePublish }
{}

/// In the second sweep a collection's exchange is the event of collecting.
pub fn collections_are_collect()
    ensures { CollectionsAreCollect }
{}
