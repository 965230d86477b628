//! The laws of a window, over any calls on a new one.
ghost use Rattle.request_window.specs.WindowLaws.{AtMostOutstanding, EachIsSentAFewTimes, EachPollIsSentOnce};
ghost use Rattle.request_window.specs.WindowLaws.{NoneIsWaitedForTooLong, PrintedAtMost, SentOnlyWhatWasQueued};

/// After any calls on a new window, at most `limits.outstanding` requests are out.
#[tactic(auto, using(crate::proofs::Lives::at_most_outstanding))]
pub fn at_most_outstanding()
    ensures { AtMostOutstanding }
{}

/// If a window may send a request more than 0 times, each request that is out was sent once at least, and at most
/// `limits.tries` times.
#[tactic(auto, using(crate::proofs::Lives::each_is_sent_a_few_times))]
pub fn each_is_sent_a_few_times()
    ensures { EachIsSentAFewTimes }
{}

/// After any calls on a new window, each poll that is out was sent once.
#[tactic(auto, using(crate::proofs::Lives::each_poll_is_sent_once))]
pub fn each_poll_is_sent_once()
    ensures { EachPollIsSentOnce }
{}

/// Each request that calls on a new window let out, for the first time or again, was queued by one of the calls.
#[tactic(auto, using(crate::proofs::Lives::sent_only_what_was_queued))]
pub fn sent_only_what_was_queued()
    ensures { SentOnlyWhatWasQueued }
{}

/// If no call on a window tells a time after `t`, each request that is out is late at any time from three time-outs
/// after `t` on.
pub fn none_is_waited_for_too_long()
    ensures { NoneIsWaitedForTooLong }
{}

/// If a window may send a request more than 0 times, the calls let out each request at most `limits.tries` times as
/// often as they queue it. So it is for any set of requests that a test tells.
#[tactic(auto, using(crate::proofs::Counts::printed_at_most))]
pub fn printed_at_most()
    ensures { PrintedAtMost }
{}
