// The laws of decisions and of the queue machine, each the contract of one function.
ghost use Rattle.fd_queue.specs.DecisionLaws.{DecidedLaw, MagnitudeLaw, ProperLaw, ValueLaw};
ghost use Rattle.fd_queue.specs.MachineLaws.{CountLaw, LeastLaw, NextLaw, OwnLaw, QueueLaw, QuietLaw, RoomLaw, SampledLaw, SpareLaw};

/// Magnitudes stand to edges as their squares do.
pub fn magnitude_law()
    ensures { MagnitudeLaw }
{}

/// Values stand to edges as they stand to each other.
pub fn value_law()
    ensures { ValueLaw }
{}

/// Magnitudes and values stand to edges as numbers do.
pub fn proper_law()
    ensures { ProperLaw }
{}

/// What is decided over an interval is so at every quantity that the interval holds.
pub fn decided_law()
    ensures { DecidedLaw }
{}

/// A step leaves a sorted list with at most one entry of each control.
pub fn queue_law()
    ensures { QueueLaw }
{}

/// The entries that act are those of the least time.
pub fn least_law()
    ensures { LeastLaw }
{}

/// A queue has at most one entry for each control.
pub fn room_law()
    ensures { RoomLaw }
{}

/// A queue without an entry of a control has room for it.
pub fn spare_law()
    ensures { SpareLaw }
{}

/// Acts are counted, and there are no more than are allowed.
pub fn count_law()
    ensures { CountLaw }
{}

/// No entry is due where a step ends a settle.
pub fn quiet_law()
    ensures { QuietLaw }
{}

/// After a sampling the controls that want to move have an entry, and no others have one.
pub fn sampled_law()
    ensures { SampledLaw }
{}

/// A step takes at most one sequence number for each control.
pub fn next_law()
    ensures { NextLaw }
{}

/// After a sampling each entry goes the way that its control decided last.
pub fn own_law()
    ensures { OwnLaw }
{}
