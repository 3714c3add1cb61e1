//! What each word leaves on a disk that tells, and each stop at one of its calls. Each function is a law: its contract is the statement, and it does nothing.

ghost use Rattle.vr_rules.specs.Stopping.{FaultIsStop, FuseIsCut, FuseIsLater, WantIsFront, WellIsDone};

/// The laws of stops, for every word that code does:
///
/// - Where all went well, replica, outputs and disk are the definition's.
/// - Where a call failed, the disk is as a front of the calls leaves it, or a cut at the next one.
/// - Where memory was wanted, the disk is as a front of the calls leaves it.
/// - A fuse at any call, with any code, leaves the cut of the calls at it, unless memory was wanted before; one that is armed
///   past them fails none.
pub fn stop_laws()
    ensures well { WellIsDone }
    ensures fault { FaultIsStop }
    ensures want { WantIsFront }
    ensures fuse { FuseIsCut }
    ensures later { FuseIsLater }
{}
