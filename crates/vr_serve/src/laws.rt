//! The laws of turns.
ghost use Rattle.vr_serve.specs.Laws.{CutsTheSame, RefusedChangeNothing, ServesTheSame};

use crate::Member;

/// Laws alone, it does nothing: among a run's receives each datagram that is no message of this version and group may be replaced
/// by a receive that gave nothing.
pub fn serve_laws<M: Member>()
    // The events that come of the turns are the same then, at the same numbers of the clock.
    ensures events { RefusedChangeNothing }

    // A run of them puts out the same bytes and the same datagrams, and leaves the same member and the same disk.
    ensures served { ServesTheSame M.does }

    // A run that is cut off puts out the same, and leaves the same.
    ensures cut { CutsTheSame M.does M.halts }
{}
