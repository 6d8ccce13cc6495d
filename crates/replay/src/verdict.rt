//! A whole history is replayed.

ghost use Rattle.replay.specs.Verdicts.{Judges};

use crate::replay::Replay;
use crate::stop::Stop;
use access_core::{Kernel, OpenFault};
use core_model::Entry;
use policy::Policy;
use sequences::Sequence;
use std::alloc::Global;

/// What a replay says of entries.
#[derive(Drop)]
pub enum Verdict {
    /// They are a whole legal history: each is what its call was owed by those before. This is the replay behind them.
    Legal(Replay),
    /// The first that wasn't taken stands behind so many others, with the replay where it stopped.
    Stopped {
        place: usize,
        why: Stop,
        replay: Replay,
    },
}

/// Whether entries are a whole legal history of a policy with its kernels, from the opening on, in which each reload
/// is of the rows of one of the further policies; else the least entry that isn't owed, or can't be told. Refused as
/// the opening of a core is.
pub fn judge(
    alloc: Global,
    policy: Policy,
    kernels: Vec<Kernel>,
    further: Sequence<Policy>,
    entries: &[Entry],
) -> Result<Verdict, OpenFault>
    ensures { Judges policy kernels.items further entries.now result }
{
    let mut replay = match Replay::open(alloc, policy, kernels, further) {
        Ok(replay) => replay,
        Err(why) => return Err(why),
    };
    'entries: for (place, entry) in entries.iter().enumerate() {
        if let Err(why) = replay.take(alloc, entry) {
            return Ok(Verdict::Stopped { place, why, replay });
        }
    }
    Ok(Verdict::Legal(replay))
}
