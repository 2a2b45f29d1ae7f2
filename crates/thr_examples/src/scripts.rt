//! Worked scripts: each text is canonical, and is read as the script that later examples run.

ghost use Rattle.thr_examples.specs.Pasted.{reads};
ghost use Rattle.thr_examples.specs.Scripts as scripts;

/// A routine that says a number.
#[tactic(auto, unfolding(crate::specs::Words::example_words), using(crate::proofs::Readings::source_reads))]
pub fn saying_seven()
    ensures { reads scripts.saying_seven }
{}

/// A bounded buffer with two producers and two consumers.
#[tactic(auto, unfolding(crate::specs::Words::example_words), using(crate::proofs::Readings::source_reads))]
pub fn buffer()
    ensures { reads scripts.buffer }
{}

/// A status exception that is caught by its number, across a call.
#[tactic(auto, unfolding(crate::specs::Words::example_words), using(crate::proofs::Readings::source_reads))]
pub fn match_by_number()
    ensures { reads scripts.match_by_number }
{}

/// A cancel that is caught and raised again.
#[tactic(auto, unfolding(crate::specs::Words::example_words), using(crate::proofs::Readings::source_reads))]
pub fn cancel_raised_again()
    ensures { reads scripts.cancel_raised_again }
{}

/// A FINALLY body that raises.
#[tactic(auto, unfolding(crate::specs::Words::example_words), using(crate::proofs::Readings::source_reads))]
pub fn finally_raises()
    ensures { reads scripts.finally_raises }
{}

/// A wait that is cancelled while the canceller holds the mutex.
#[tactic(auto, unfolding(crate::specs::Words::example_words), using(crate::proofs::Readings::source_reads))]
pub fn cancelled_wait()
    ensures { reads scripts.cancelled_wait }
{}

/// A wait that is signalled and then cancelled, with a point after it.
#[tactic(auto, unfolding(crate::specs::Words::example_words), using(crate::proofs::Readings::source_reads))]
pub fn signalled_wait()
    ensures { reads scripts.signalled_wait }
{}

/// Cancels of one thread that merge, and of one that has ended.
#[tactic(auto, unfolding(crate::specs::Words::example_words), using(crate::proofs::Readings::source_reads))]
pub fn cancels_merge()
    ensures { reads scripts.cancels_merge }
{}

/// A cancel that is delivered at a quiet statement.
#[tactic(auto, unfolding(crate::specs::Words::example_words), using(crate::proofs::Readings::source_reads))]
pub fn asynchronous_delivery()
    ensures { reads scripts.asynchronous_delivery }
{}

/// A fast mutex that is locked twice.
#[tactic(auto, unfolding(crate::specs::Words::example_words), using(crate::proofs::Readings::source_reads))]
pub fn fast_mutex_twice()
    ensures { reads scripts.fast_mutex_twice }
{}

/// A nonrecursive mutex that is locked twice.
#[tactic(auto, unfolding(crate::specs::Words::example_words), using(crate::proofs::Readings::source_reads))]
pub fn nonrecursive_mutex_twice()
    ensures { reads scripts.nonrecursive_mutex_twice }
{}

/// A recursive mutex that is locked twice and unlocked three times.
#[tactic(auto, unfolding(crate::specs::Words::example_words), using(crate::proofs::Readings::source_reads))]
pub fn recursive_mutex_twice()
    ensures { reads scripts.recursive_mutex_twice }
{}

/// An error reply where no error raises.
#[tactic(auto, unfolding(crate::specs::Words::example_words), using(crate::proofs::Readings::source_reads))]
pub fn error_in_status()
    ensures { reads scripts.error_in_status }
{}

/// An error reply where errors raise.
#[tactic(auto, unfolding(crate::specs::Words::example_words), using(crate::proofs::Readings::source_reads))]
pub fn error_in_exc()
    ensures { reads scripts.error_in_exc }
{}

/// A once routine that is unwound while two threads wait.
#[tactic(auto, unfolding(crate::specs::Words::example_words), using(crate::proofs::Readings::source_reads))]
pub fn once_undone()
    ensures { reads scripts.once_undone }
{}

/// A destructor that raises.
#[tactic(auto, unfolding(crate::specs::Words::example_words), using(crate::proofs::Readings::source_reads))]
pub fn destructor_raises()
    ensures { reads scripts.destructor_raises }
{}

/// A reader that is cancelled while it waits, and a closed pipe.
#[tactic(auto, unfolding(crate::specs::Words::example_words), using(crate::proofs::Readings::source_reads))]
pub fn cancelled_reader()
    ensures { reads scripts.cancelled_reader }
{}

/// Two timed waits that end at one time.
#[tactic(auto, unfolding(crate::specs::Words::example_words), using(crate::proofs::Readings::source_reads))]
pub fn equal_times()
    ensures { reads scripts.equal_times }
{}

/// A loop that reaches the limit of a history.
#[tactic(auto, unfolding(crate::specs::Words::example_words), using(crate::proofs::Readings::source_reads))]
pub fn limit_reached()
    ensures { reads scripts.limit_reached }
{}

/// A thread of a greater rank than its maker.
#[tactic(auto, unfolding(crate::specs::Words::example_words), using(crate::proofs::Readings::source_reads))]
pub fn ranks()
    ensures { reads scripts.ranks }
{}

/// A sum outside 64 bits.
#[tactic(auto, unfolding(crate::specs::Words::example_words), using(crate::proofs::Readings::source_reads))]
pub fn overflow()
    ensures { reads scripts.overflow }
{}

/// A shared variable that is set.
#[tactic(auto, unfolding(crate::specs::Words::example_words), using(crate::proofs::Readings::source_reads))]
pub fn shared_variable()
    ensures { reads scripts.shared_variable }
{}

/// A thread that is joined twice.
#[tactic(auto, unfolding(crate::specs::Words::example_words), using(crate::proofs::Readings::source_reads))]
pub fn joined_twice()
    ensures { reads scripts.joined_twice }
{}

/// The global lock, which is unlocked once too often.
#[tactic(auto, unfolding(crate::specs::Words::example_words), using(crate::proofs::Readings::source_reads))]
pub fn global_lock()
    ensures { reads scripts.global_lock }
{}

/// Two threads that lock two mutexes in opposite order.
#[tactic(auto, unfolding(crate::specs::Words::example_words), using(crate::proofs::Readings::source_reads))]
pub fn deadlock_of_two()
    ensures { reads scripts.deadlock_of_two }
{}

/// Each declaration, statement and operator.
#[tactic(auto, unfolding(crate::specs::Words::example_words), using(crate::proofs::Readings::source_reads))]
pub fn every_statement()
    ensures { reads scripts.every_statement }
{}

/// Each call of the thread service.
#[tactic(auto, unfolding(crate::specs::Words::example_words), using(crate::proofs::Readings::source_reads))]
pub fn every_call()
    ensures { reads scripts.every_call }
{}
