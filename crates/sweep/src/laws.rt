//! Laws of every run of a sweep.
ghost use Rattle.sweep.specs.Runs.{EachCounts, EachManagerCounts, NoImageUnasked, NumbersRise};

/// The numbers of the requests that a sweep sends rise, whatever the sweep receives and in whatever order, so no number
/// is used twice.
pub fn numbers_rise()
    ensures { NumbersRise }
{}

/// The requests that were answered, timed out, are outstanding or are to be sent are together as many as the numbers
/// that the sweep has given to requests. So if no request is outstanding or to be sent, each was answered or timed
/// out.
pub fn each_request_counts()
    ensures { EachCounts }
{}

/// A sweep has sent as many requests for SMInfo as were answered, are outstanding, or count as silent managers. So
/// once a sweep is done, each manager that was asked has answered or counts as silent.
#[tactic(auto, using(crate::proofs::Managers::each_manager_counts))]
pub fn each_manager_counts()
    ensures { EachManagerCounts }
{}

/// A sweep that is not asked to keep images keeps none, whatever it receives.
#[tactic(auto, using(crate::proofs::Unasked::no_image_unasked))]
pub fn no_image_unasked()
    ensures { NoImageUnasked }
{}
